// Document 01, "Fragments": a group's key is originator (may be absent) and master id.
// A key of the names that a call is given, its equality, and the rules that it keeps.
#![tactic(auto)]

ghost use Rattle.std.specs.Prelude.{◌≡◌, option_map};
ghost use Rattle.groupkeys.specs.Key.{same_key, keeps_key, no_key, named_of};

mod parts;

use refusals::Refusal;

// A group's key: its originator, which may be absent, and its master id. The originator stands in the front of its array; the bytes past it are zero.
// A flag and not an Option: a host hands keys in, and keeps_key (40) speaks of the bytes of an absent originator and of those past a present one.
#[derive(Clone, Copy)]
pub struct Key {
    pub has_originator: bool,
    pub originator: [u8; 12],
    pub originator_len: usize,
    pub master: u32,
}

// No group's key: all zero.
pub fn no_key() -> Key
    ensures { result ≡ no_key }
{
    Key {
        has_originator: false,
        originator: [0u8; 12],
        originator_len: 0,
        master: 0,
    }
}

// The key of the originator, where there is one, and the master id that a call is given: 8, then 17.
#[tactic(auto, unfolding(crate::specs::Key::named_of))]
pub fn name(originator: Option<&[u8]>, master: u32) -> Result<Key, Refusal>
    ensures { result ≡ named_of (option_map (λ s. s.now) originator.entry) master }
{
    if !parts::is_originator(originator) {
        return Err(Refusal::NoCallsign);
    }
    if !field_rules::id_rule(master) {
        return Err(Refusal::FragmentMalformed);
    }
    Ok(parts::key_of(originator, master))
}

// Whether two keys are equal.
#[tactic(auto, unfolding(crate::specs::Key::same_key))]
pub fn same(a: Key, b: Key) -> bool
    ensures { result ≡ same_key a b }
{
    if a.master != b.master {
        return false;
    }
    if !a.has_originator {
        return !b.has_originator;
    }
    let n = a.originator_len;
    let m = b.originator_len;
    b.has_originator
        && callsigns::same_call(
            lengths::part(&a.originator, n),
            lengths::part(&b.originator, m),
        )
}

// Whether a key keeps its rules (40).
#[tactic(auto, unfolding(crate::specs::Key::keeps_key))]
pub fn keeps(k: Key) -> bool
    ensures { result ≡ keeps_key k }
{
    let n = k.originator_len;
    n <= 12
        && parts::keeps_originator(k.has_originator, lengths::part(&k.originator, n))
        && lengths::zero_from(&k.originator, n)
        && field_rules::id_rule(k.master)
}
