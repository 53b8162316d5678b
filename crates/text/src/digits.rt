// Digits `0-9a-f` in any base up to sixteen, read and written: the work of decimals and of hex.
ghost use Rattle.std.specs.Prelude.{◌≡◌, ◌<◌, ◌≤◌};
ghost use Rattle.octets.specs.Bytes.{fits, placed};
ghost use Rattle.text.specs.Digits.{digit, digits};
ghost use Rattle.text.specs.Steps.{worth_in, spelled};

// What a digit of the base is worth.
fn worth_of(b: u8, base: u64) -> Option<u64>
    requires { base ≤ 16 }
    ensures { result ≡ worth_in base b }
{
    let d = match b {
        b'0'..=b'9' => b - b'0',
        b'a'..=b'f' => b - b'a' + 10,
        _ => return None,
    };
    if u64::from(d) < base {
        Some(u64::from(d))
    } else {
        None
    }
}

// The digit that is worth `d`.
fn digit_of(d: u64) -> u8
    requires { d < 16 }
    ensures { result ≡ digit d }
{
    if d < 10 {
        b'0' + d as u8
    } else {
        b'a' - 10 + d as u8
    }
}

// The number up to `limit` that the digits spell. What is past the limit stays past it, so the reading ends there.
pub(crate) fn read(s: &[u8], base: u64, limit: u64) -> Option<u64>
    requires { (0 < base) × (base ≤ 16) }
    ensures { result ≡ spelled base limit s.now }
{
    let mut n: u64 = 0;
    for b in s {
        let d = worth_of(*b, base)?;
        n = n.checked_mul(base)?.checked_add(d)?;
        if n > limit {
            return None;
        }
    }
    Some(n)
}

// The low `count` digits of `v`, the last one first, at the place `at`.
pub(crate) fn write(v: u64, base: u64, count: usize, out: &mut [u8], at: usize) -> bool
    requires { (0 < base) × (base ≤ 16) }
    ensures { (result ≡ fits (digits base count v) at out.old) × (out.new ≡ placed (digits base count v) at out.old) }
{
    if out.len() < at {
        return false;
    }
    if out.len() - at < count {
        return false;
    }
    let mut n = v;
    for i in (0..count).rev() {
        out[at + i] = digit_of(n % base);
        n /= base;
    }
    true
}
