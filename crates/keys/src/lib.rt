// Document 01, "Streams": a row's key, originator and stream id. Whoever keeps rows by key compares keys by `same` and never looks inside.
#![tactic(auto)]

ghost use Rattle.std.specs.Prelude.{◌≡◌, ◌≤◌, length, replicate, sum};
ghost use Rattle.octets.specs.Bytes.{front};
ghost use Rattle.keys.specs.Key.{no_key, same_key, named_says, named_of, keeps_key, is_no_key, stream_id_of, mark_of};

use refusals::Refusal;

// The names stand in the front of the arrays; the bytes past them are zero. A key of any other kind that a host hands in is refused with 40.
#[derive(Clone, Copy)]
pub struct Key {
    pub originator: [u8; 12],
    pub originator_len: usize,
    pub stream_id: [u8; 255],
    pub stream_id_len: usize,
}

// No stream's key: all zero.
pub fn none() -> Key
    ensures { result ≡ no_key }
{
    Key {
        originator: [0u8; 12],
        originator_len: 0,
        stream_id: [0u8; 255],
        stream_id_len: 0,
    }
}

// The key of the names that a call is given.
#[tactic(auto, unfolding(crate::specs::Key::named_of))]
pub fn name(originator: &[u8], stream_id: &[u8]) -> Result<Key, Refusal>
    ensures { named_says result ≡ named_of originator.now stream_id.now }
{
    if !callsigns::is_callsign(originator) {
        return Err(Refusal::NoCallsign);
    }
    if !names::is_stream_id(stream_id) {
        return Err(Refusal::StreamIdMalformed);
    }
    Ok(Key {
        originator: padded(originator),
        originator_len: originator.len(),
        stream_id: padded(stream_id),
        stream_id_len: stream_id.len(),
    })
}

// A name in the front of an array, with zeros behind it.
fn padded<const N: usize>(name: &[u8]) -> [u8; N]
    requires { length name.now ≤ N }
    ensures { result ≡ front name.now (replicate N 0) }
{
    let mut a = [0u8; N];
    a[..name.len()].copy_from_slice(name);
    a
}

// Whether two keys are equal. Lengths are compared first, then the bytes from the front, so that unlike keys part at once.
#[tactic(auto, unfolding(crate::specs::Key::same_key))]
pub fn same(a: Key, b: Key) -> bool
    ensures { result ≡ same_key a b }
{
    let n = a.originator_len;
    let m = b.originator_len;
    if !callsigns::same_call(
        lengths::part(&a.originator, n),
        lengths::part(&b.originator, m),
    ) {
        return false;
    }
    lengths::part(&a.stream_id, a.stream_id_len) == lengths::part(&b.stream_id, b.stream_id_len)
}

// A number for a key, by which unlike keys are told apart at once: equal keys have equal marks. It is that of the stream id alone.
pub fn mark(k: Key) -> u32
    ensures { result ≡ mark_of (stream_id_of k) }
{
    let id = lengths::part(&k.stream_id, k.stream_id_len);
    match id.last() {
        Some(last) => total(id) * 256 + u32::from(*last),
        None => 0,
    }
}

// The sum of the bytes of a stream id.
fn total(id: &[u8]) -> u32
    requires { length id.now ≤ 255 }
    ensures value { result ≡ sum id.now }
    ensures small { result ≤ 65025 }
{
    id.iter().map(|b| u32::from(*b)).sum()
}

// Whether a key keeps its rules (40).
#[tactic(auto, unfolding(crate::specs::Key::keeps_key))]
pub fn keeps_rules(k: Key) -> bool
    ensures { result ≡ keeps_key k }
{
    let n = k.originator_len;
    if n > 12 {
        return false;
    }
    if !callsigns::is_callsign(lengths::part(&k.originator, n)) {
        return false;
    }
    if !lengths::zero_from(&k.originator, n) {
        return false;
    }
    let m = k.stream_id_len;
    if m > 255 {
        return false;
    }
    if !names::is_stream_id(lengths::part(&k.stream_id, m)) {
        return false;
    }
    lengths::zero_from(&k.stream_id, m)
}

// Whether all of a key is zero.
#[tactic(auto, unfolding(crate::specs::Key::is_no_key))]
pub fn is_none(k: Key) -> bool
    ensures { result ≡ is_no_key k }
{
    k.originator_len == 0
        && k.stream_id_len == 0
        && lengths::zero_from(&k.originator, 0)
        && lengths::zero_from(&k.stream_id, 0)
}
