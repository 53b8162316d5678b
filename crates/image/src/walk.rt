// What a refused load hands back.
ghost use Rattle.std.specs.Prelude.{◌≡◌};
ghost use Rattle.refusals.specs.Refusals.{number_of};
ghost use Rattle.rows.specs.Answer.{refuse};
ghost use Rattle.image.specs.Answer.{loaded_says};

use crate::Loaded;
use refusals::Refusal;
use streams::Table;

pub(crate) fn refused(why: Refusal, table: Table) -> Loaded
    ensures { loaded_says result ≡ refuse (number_of why) table }
{
    Loaded {
        answer: Err(why),
        table,
    }
}
