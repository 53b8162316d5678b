// The states of a session, as they are entered.
ghost use Rattle.std.specs.Prelude.{◌≡◌, replicate};
ghost use Rattle.talk.specs.Sessions.{no_terms};

use crate::{Session, Terms};
use sha1_digest::Sha1;

pub(crate) fn no_terms() -> Terms
    ensures { result ≡ no_terms }
{
    Terms {
        id: 0,
        salt: None,
        len: 0,
    }
}

// A mode with no byte of a line and none of a payload.
pub(crate) fn entered(mode: u8, terms: Terms, hash: Sha1) -> Session
    ensures { result ≡ record { mode = mode; line_len = 0; line = replicate 512 0; terms = terms; got = 0; hash = hash } }
{
    Session {
        mode,
        line_len: 0,
        line: [0u8; 512],
        terms,
        got: 0,
        hash,
    }
}
