// The parts of a group's key.
ghost use Rattle.std.specs.Prelude.{◌≡◌, true, option_map};
ghost use Rattle.groupkeys.specs.Key.{keeps_originator, is_originator, key_of};

use crate::Key;

// The key of an originator that is a callsign, or of none.
pub(crate) fn key_of(originator: Option<&[u8]>, master: u32) -> Key
    requires { is_originator (option_map (λ s. s.now) originator) ≡ true }
    ensures { result ≡ key_of (option_map (λ s. s.now) originator.entry) master }
{
    let Some(s) = originator else {
        return Key {
            master,
            ..crate::no_key()
        };
    };
    let mut front = [0u8; 12];
    front[..s.len()].copy_from_slice(s);
    Key {
        has_originator: true,
        originator: front,
        originator_len: s.len(),
        master,
    }
}

// Whether an originator, where there is one, is a callsign.
pub(crate) fn is_originator(originator: Option<&[u8]>) -> bool
    ensures { result ≡ is_originator (option_map (λ s. s.now) originator.entry) }
{
    originator.is_none_or(callsigns::is_callsign)
}

// Whether a text is a key's originator, or an absent one's.
pub(crate) fn keeps_originator(has: bool, s: &[u8]) -> bool
    ensures { result ≡ keeps_originator has s.now }
{
    if has {
        return callsigns::is_callsign(s);
    }
    s.is_empty()
}
