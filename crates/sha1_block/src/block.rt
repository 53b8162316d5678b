// One block (FIPS 180-4, 6.1.2): the message schedule, the eighty rounds, the sums.
ghost use Rattle.std.specs.Prelude.{◌≡◌, ◌+◌, ◌*◌, ◌%◌, ◌^◌, ◌<◌, ◌≤◌, length, take, drop};
ghost use Rattle.sha1_block.specs.declared.Hash.{Hash};
ghost use Rattle.sha1_block.specs.Block as fips;

use super::Hash;

fn rotl(n: u32, x: u32) -> u32
    requires { (0 < n) × (n < 32) }
    ensures { result ≡ fips.rotl n x }
{
    x.rotate_left(n)
}

// The function and the constant of round t, added.
fn f_and_k(t: usize, x: u32, y: u32, z: u32) -> u32
    ensures { result ≡ (fips.f t x y z + fips.k t) % 2 ^ 32 }
{
    if t < 20 {
        return ((x & y) ^ (!x & z)).wrapping_add(0x5A827999);
    }
    if t < 40 {
        return (x ^ y ^ z).wrapping_add(0x6ED9EBA1);
    }
    if t < 60 {
        return ((x & y) ^ (x & z) ^ (y & z)).wrapping_add(0x8F1BBCDC);
    }
    (x ^ y ^ z).wrapping_add(0xCA62C1D6)
}

fn round(t: usize, w: u32, s: Hash) -> Hash
    ensures { result ≡ fips.round t w s }
{
    let x = rotl(5, s.a).wrapping_add(f_and_k(t, s.b, s.c, s.d));
    let y = x.wrapping_add(s.e);
    Hash {
        a: y.wrapping_add(w),
        b: s.a,
        c: rotl(30, s.b),
        d: s.c,
        e: s.d,
    }
}

#[tactic(auto, unfolding(crate::specs::Block::plus))]
fn plus(h: Hash, v: Hash) -> Hash
    ensures { result ≡ fips.plus h v }
{
    Hash {
        a: h.a.wrapping_add(v.a),
        b: h.b.wrapping_add(v.b),
        c: h.c.wrapping_add(v.c),
        d: h.d.wrapping_add(v.d),
        e: h.e.wrapping_add(v.e),
    }
}

// The four bytes of s at i, the highest first.
fn word(s: &[u8], i: usize) -> u32
    requires { i + 4 ≤ length s.now }
    ensures { result ≡ fips.word s.now i }
{
    u32::from_be_bytes([s[i], s[i + 1], s[i + 2], s[i + 3]])
}

fn mix(w: &[u32; 80], t: usize) -> u32
    requires { (16 ≤ t) × (t < 80) }
    ensures { result ≡ fips.mixed w.now t }
{
    rotl(1, w[t - 3] ^ w[t - 8] ^ w[t - 14] ^ w[t - 16])
}

// The eighty words of the block at `at`: sixteen of its own, each other one of four before it.
fn schedule(s: &[u8], at: usize) -> [u32; 80]
    requires { at + 64 ≤ length s.now }
    ensures { result ≡ fips.schedule (take 64 (drop at s.now)) 80 }
{
    let mut w = [0u32; 80];
    for t in 0..16 {
        w[t] = word(s, at + 4 * t);
    }
    for t in 16..80 {
        w[t] = mix(&w, t);
    }
    w
}

// The rounds from `from` up to `to`, where v is what the rounds before made.
fn run(v: Hash, w: &[u32; 80], from: usize, to: usize) -> Hash
    requires { (from ≤ to) × (to ≤ 80) }
    ensures { (h : Hash) → v ≡ fips.rounds w.now from h → result ≡ fips.rounds w.now to h }
{
    let mut s = v;
    for t in from..to {
        s = round(t, w[t], s);
    }
    s
}

// The hash value after the block at `at`. Each run is of one function and one constant, so that its tests fold away.
pub(crate) fn compress(h: Hash, s: &[u8], at: usize) -> Hash
    requires { at + 64 ≤ length s.now }
    ensures { result ≡ fips.compressed h (take 64 (drop at s.now)) }
{
    let w = schedule(s, at);
    let x = run(run(h, &w, 0, 20), &w, 20, 40);
    let v = run(run(x, &w, 40, 60), &w, 60, 80);
    plus(h, v)
}
