// Feeding: bytes that stay within one block, and whole blocks.
ghost use Rattle.std.specs.Prelude.{◌≡◌, ◌+◌, ◌-◌, ◌*◌, ◌/◌, ◌%◌, ◌<◌, ◌≤◌, ◌∷◌, length, take, replicate};
ghost use Rattle.sha1_digest.specs.Sha1.{big64};
ghost use Rattle.sha1_digest.specs.Machine.{fed_all};

use super::Sha1;
use sha1_block::Hash;

// Bytes that end at the waiting block's end, or before it.
pub(crate) fn put(st: Sha1, s: &[u8]) -> Sha1
    requires { st.total % 64 + length s.now ≤ 64 }
    ensures { result ≡ fed_all st s.now }
{
    let at = (st.total % 64) as usize;
    let h = st.h;
    let mut filled = st.block;
    octets::copy_at(s, &mut filled, at);
    let next = sha1_block::taken(h, &filled, at + s.len());
    let total = st.total.wrapping_add(s.len() as u64);
    Sha1 {
        h: next,
        block: filled,
        total,
    }
}

// The whole blocks of a piece, where none has begun. The last of them stays in the state's block, as if its bytes had gone through it.
pub(crate) fn blocks(st: Sha1, s: &[u8]) -> Sha1
    requires { st.total % 64 ≡ 0 }
    ensures { result ≡ fed_all st (take (64 * (length s.now / 64)) s.now) }
{
    let end = s.len() / 64 * 64;
    if end == 0 {
        return st;
    }
    let h = sha1_block::chain(st.h, s);
    let last = end - 64;
    let mut filled = st.block;
    octets::copy_at(&s[last..end], &mut filled, 0);
    let total = st.total.wrapping_add(end as u64);
    Sha1 {
        h,
        block: filled,
        total,
    }
}

// A piece where no block has begun: its whole blocks, and the rest.
pub(crate) fn from_start(st: Sha1, s: &[u8]) -> Sha1
    requires { st.total % 64 ≡ 0 }
    ensures { result ≡ fed_all st s.now }
{
    let end = s.len() / 64 * 64;
    put(blocks(st, s), &s[end..])
}

// The padding's first byte and zeros, up to the place `to`.
pub(crate) fn mark(st: Sha1, to: usize) -> Sha1
    requires { (st.total % 64 < to) × (to ≤ 64) }
    ensures { result ≡ fed_all st (0x80 ∷ replicate (to - st.total % 64 - 1) 0) }
{
    let n = to - (st.total % 64) as usize;
    let mut bytes = [0u8; 64];
    bytes[0] = 0x80;
    put(st, &bytes[..n])
}

// The length in bits of a message of `total` bytes, the highest byte first, ends the last block.
pub(crate) fn close(st: Sha1, total: u64) -> Hash
    requires { st.total % 64 ≡ 56 }
    ensures { result ≡ (fed_all st (big64 (8 * total))).h }
{
    let bits = total << 3;
    put(st, &bits.to_be_bytes()).h
}
