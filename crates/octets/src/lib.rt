// Bytes, once for all crates: equality, copying into a lent buffer, little-endian numbers at every width.
// Whatever is written goes to a place of a lent buffer; what does not fit there changes no byte, and the answer says so.
#![tactic(auto)]

ghost use Rattle.std.specs.Prelude.{◌≡◌, ◌%◌, ◌^◌, ◌≤◌, ℕ};
ghost use Rattle.octets.specs.Bytes.{same, fits, placed};
ghost use Rattle.octets.specs.Numbers.{little_bytes, twos, from_twos};
ghost use Rattle.octets.specs.Field.{num};
ghost use Rattle.octets.specs.Reading.{read_as};

mod numbers;

// Whether two slices hold the same bytes.
pub fn equal(a: &[u8], b: &[u8]) -> bool
    ensures { result ≡ same a.now b.now }
{
    a == b
}

// The bytes of `src` at the place `at` of a lent buffer.
pub fn copy_at(src: &[u8], out: &mut [u8], at: usize) -> bool
    ensures { (result ≡ fits src.now at out.old) × (out.new ≡ placed src.now at out.old) }
{
    if out.len() < at {
        return false;
    }
    if out.len() - at < src.len() {
        return false;
    }
    out[at..at + src.len()].copy_from_slice(src);
    true
}

// ---- numbers, the lowest byte first

// A type of numbers that are read from a fixed count of bytes.
pub trait Little: Copy {
    // How many bytes, and the value that their number stands for.
    ghost width: { ℕ };

    ghost value: { ℕ → Self };

    fn width() -> usize
        ensures { (result ≡ width) × (result ≤ 8) };

    // What the lowest bytes of a number stand for.
    fn of(number: u64) -> Self
        ensures { result ≡ value (number % 256 ^ width) };
}

impl Little for u8 {
    ghost width = { 1 };

    ghost value = { λ n. n };

    fn width() -> usize {
        1
    }

    fn of(number: u64) -> u8 {
        (number % 0x100) as u8
    }
}

impl Little for u16 {
    ghost width = { 2 };

    ghost value = { λ n. n };

    fn width() -> usize {
        2
    }

    fn of(number: u64) -> u16 {
        (number % 0x1_0000) as u16
    }
}

impl Little for u32 {
    ghost width = { 4 };

    ghost value = { λ n. n };

    fn width() -> usize {
        4
    }

    fn of(number: u64) -> u32 {
        (number % 0x1_0000_0000) as u32
    }
}

impl Little for u64 {
    ghost width = { 8 };

    ghost value = { λ n. n };

    fn width() -> usize {
        8
    }

    fn of(number: u64) -> u64 {
        number
    }
}

impl Little for i64 {
    ghost width = { 8 };

    ghost value = { from_twos };

    fn width() -> usize {
        8
    }

    fn of(number: u64) -> i64 {
        numbers::to_signed(number)
    }
}

// The number at the front of a part, with the bytes used; none where the part is too short for it.
pub fn read<T: Little>(s: &[u8]) -> Option<(T, usize)>
    ensures { result ≡ read_as T.value ((num T.width).parse s.now) }
{
    let width = T::width();
    if s.len() < width {
        return None;
    }
    Some((T::of(numbers::gather(s, width)), width))
}

// The lowest `width` bytes of a number, the lowest first, at the place `at` of a lent buffer.
pub fn put_number(v: u64, width: usize, out: &mut [u8], at: usize) -> bool
    ensures { (result ≡ fits (little_bytes width v) at out.old) × (out.new ≡ placed (little_bytes width v) at out.old) }
{
    if out.len() < at {
        return false;
    }
    if out.len() - at < width {
        return false;
    }
    let mut rest = v;
    for i in 0..width {
        out[at + i] = (rest % 256) as u8;
        rest /= 256;
    }
    true
}

pub fn put_i64(v: i64, out: &mut [u8], at: usize) -> bool
    ensures { (result ≡ fits (little_bytes 8 (twos v)) at out.old) × (out.new ≡ placed (little_bytes 8 (twos v)) at out.old) }
{
    put_number(numbers::to_bits(v), 8, out, at)
}
