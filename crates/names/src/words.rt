// A text against a padded spelling.
ghost use Rattle.std.specs.Prelude.{◌≡◌, ◌≤◌};
ghost use Rattle.octets.specs.Bytes.{same};
ghost use Rattle.names.specs.Reserved.{spelling};

use crate::Word;

// Whether a text is what a padded spelling says.
#[tactic(auto, unfolding(crate::specs::Reserved::spelling))]
pub(crate) fn spells(s: &[u8], w: Word) -> bool
    requires { w.len ≤ 4 }
    ensures { result ≡ same s.now (spelling w) }
{
    s == &w.text[..w.len]
}
