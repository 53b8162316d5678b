// SHA-1 (FIPS 180-4): what a block, or the whole blocks of a piece, make of the hash value.
#![tactic(auto)]

ghost use Rattle.std.specs.Prelude.{◌≡◌, ◌/◌, length, if◌then◌else◌};
ghost use Rattle.octets.specs.Words.{◌=?◌};
ghost use Rattle.sha1_block.specs.Block as fips;

mod block;

// The five words of a hash value.
#[derive(Clone, Copy)]
pub struct Hash {
    pub a: u32,
    pub b: u32,
    pub c: u32,
    pub d: u32,
    pub e: u32,
}

// The hash value after a block of which n bytes are filled: only a full one is taken.
pub fn taken(h: Hash, filled: &[u8; 64], n: usize) -> Hash
    ensures { result ≡ (if n =? 64 then fips.compressed h filled.now else h) }
{
    if n == 64 {
        return block::compress(h, filled, 0);
    }
    h
}

// The hash value after the whole blocks of s.
pub fn chain(h: Hash, s: &[u8]) -> Hash
    ensures { result ≡ fips.chain h s.now (length s.now / 64) }
{
    let mut v = h;
    for n in 0..s.len() / 64 {
        v = block::compress(v, s, 64 * n);
    }
    v
}
