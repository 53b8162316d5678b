// Text: decimals, and the hex digits of an id and of `chk`.
#![tactic(auto)]

ghost use Rattle.std.specs.Prelude.{◌≡◌, length};
ghost use Rattle.octets.specs.Bytes.{fits, placed};
ghost use Rattle.text.specs.Decimal.{number_of, decimal, signed_of, signed_decimal};
ghost use Rattle.text.specs.Hex.{id_of, chk_of, hex_digits};

mod decimal;
mod digits;

// A number from 0 to the limit.
pub fn read_number(s: &[u8], limit: u64) -> Option<u64>
    ensures { result ≡ number_of limit s.now }
{
    if !decimal::starts(s) {
        return None;
    }
    digits::read(s, 10, limit)
}

// How many bytes `write_number` writes.
pub fn number_size(v: u64) -> usize
    ensures { result ≡ length (decimal v) }
{
    let mut n: usize = 1;
    let mut left = v;
    while left > 9 {
        left /= 10;
        n += 1;
    }
    n
}

// A number's decimal at the place `at` of a lent buffer; where it does not fit, no byte changes and the answer is false.
pub fn write_number(v: u64, out: &mut [u8], at: usize) -> bool
    ensures { (result ≡ fits (decimal v) at out.old) × (out.new ≡ placed (decimal v) at out.old) }
{
    let n = number_size(v);
    digits::write(v, 10, n, out, at)
}

// A number from -9223372036854775808 to 9223372036854775807.
pub fn read_signed(s: &[u8]) -> Option<i64>
    ensures { result ≡ signed_of s.now }
{
    if let [b'-', digits @ ..] = s {
        return decimal::negative(read_number(digits, 9223372036854775808)?);
    }
    Some(read_number(s, 9223372036854775807)? as i64)
}

// How many bytes `write_signed` writes.
pub fn signed_size(v: i64) -> usize
    ensures { result ≡ length (signed_decimal v) }
{
    let n = number_size(v.unsigned_abs());
    if v < 0 { n + 1 } else { n }
}

// A signed number's decimal at the place `at` of a lent buffer; where it does not fit, no byte changes and the answer is false.
pub fn write_signed(v: i64, out: &mut [u8], at: usize) -> bool
    ensures { (result ≡ fits (signed_decimal v) at out.old) × (out.new ≡ placed (signed_decimal v) at out.old) }
{
    let m = v.unsigned_abs();
    if v >= 0 {
        return write_number(m, out, at);
    }
    let n = number_size(m);
    if out.len() <= at {
        return false;
    }
    if out.len() - at <= n {
        return false;
    }
    out[at] = b'-';
    digits::write(m, 10, n, out, at + 1)
}

// An id: 7 of `0-9a-f`.
pub fn read_id(s: &[u8]) -> Option<u32>
    ensures { result ≡ id_of s.now }
{
    if s.len() != 7 {
        return None;
    }
    Some(digits::read(s, 16, 0xFFFFFFF)? as u32)
}

// The low 28 bits of `id` at the place `at` of a lent buffer; where they do not fit, no byte changes and the answer is false.
pub fn write_id(id: u32, out: &mut [u8], at: usize) -> bool
    ensures { (result ≡ fits (hex_digits 7 id) at out.old) × (out.new ≡ placed (hex_digits 7 id) at out.old) }
{
    digits::write(u64::from(id), 16, 7, out, at)
}

// A `chk`: four of `0-9a-f`.
pub fn read_chk(s: &[u8]) -> Option<u16>
    ensures { result ≡ chk_of s.now }
{
    if s.len() != 4 {
        return None;
    }
    Some(digits::read(s, 16, 0xFFFF)? as u16)
}

// A `chk` at the place `at` of a lent buffer; where it does not fit, no byte changes and the answer is false.
pub fn write_chk(chk: u16, out: &mut [u8], at: usize) -> bool
    ensures { (result ≡ fits (hex_digits 4 chk) at out.old) × (out.new ≡ placed (hex_digits 4 chk) at out.old) }
{
    digits::write(u64::from(chk), 16, 4, out, at)
}
