// Lengths and parts, once for all crates: a length cut to an array, the first bytes of a text, whether a rest is zero, and numbers made wider.
#![tactic(auto)]

ghost use Rattle.std.specs.Prelude.{◌≡◌, ◌<◌, ◌≤◌, min, take, drop, fold};
ghost use Rattle.std.specs.Int.Bits.{bit_or};
ghost use Rattle.octets.specs.Bytes.{all_zero};

// A length, cut to what an array has.
pub fn at_most(n: usize, room: usize) -> usize
    ensures { (result ≡ min n room) × (result ≤ room) }
{
    n.min(room)
}

// The first n bytes, or all where there are fewer.
pub fn part(a: &[u8], n: usize) -> &[u8]
    ensures { result.now ≡ take n a.now }
{
    &a[..n.min(a.len())]
}

// The bits that stand in any of the bytes. A loop that does not leave early runs many bytes wide.
fn gathered(s: &[u8]) -> u8
    ensures { result ≡ fold bit_or 0 s.now }
{
    s.iter().fold(0, |bits, x| bits | *x)
}

// Whether the bytes from n on are all zero: they are gathered and tested once.
pub fn zero_from(s: &[u8], n: usize) -> bool
    ensures { result ≡ all_zero (drop n s.now) }
{
    gathered(&s[n.min(s.len())..]) == 0
}

// ---- the same number in a wider type; its bound spares the caller a proof

pub fn wide16(x: u16) -> usize
    ensures { (result ≡ x) × (result < 65536) }
{
    usize::from(x)
}

pub fn wide32(x: u32) -> u64
    ensures { (result ≡ x) × (result < 4294967296) }
{
    u64::from(x)
}

pub fn wide_size(x: usize) -> u64
    ensures { result ≡ x }
{
    x as u64
}
