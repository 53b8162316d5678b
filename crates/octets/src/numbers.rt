// The work behind the number readers and writers: the number in bytes over the width, and two's complement.
ghost use Rattle.std.specs.Prelude.{◌≡◌, ◌^◌, ◌<◌, ◌≤◌, length, take};
ghost use Rattle.octets.specs.Numbers.{little, twos, from_twos};

// The number in the first w bytes, from the highest byte down.
pub(crate) fn gather(s: &[u8], w: usize) -> u64
    requires { (w ≤ 8) × (w ≤ length s.now) }
    ensures { (result ≡ little (take w s.now)) × (result < 256 ^ w) }
{
    let mut v: u64 = 0;
    for i in (0..w).rev() {
        v = v * 256 + u64::from(s[i]);
    }
    v
}

// Two's complement: from -1 down the bits count down from all ones.
pub(crate) fn to_signed(v: u64) -> i64
    ensures { result ≡ from_twos v }
{
    if v < 9223372036854775808 {
        v as i64
    } else {
        let m = 18446744073709551615 - v;
        -1 - (m as i64)
    }
}

pub(crate) fn to_bits(z: i64) -> u64
    ensures { result ≡ twos z }
{
    if z >= 0 {
        z as u64
    } else {
        let m = -1 - z;
        18446744073709551615 - (m as u64)
    }
}
