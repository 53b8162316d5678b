// Runs of ASCII, bytes up to 0x7F, passed in steps of so many bytes at once.
ghost use Rattle.std.specs.Prelude.{◌+◌, ◌<◌, ◌≤◌, ◌≡◌, length, take, drop};
ghost use Rattle.octets.specs.Words.{every};
ghost use Rattle.utf8.specs.Ascii.{ascii, behind_ascii};
ghost use Rattle.utf8.specs.Steps.{Stepped};

// A long step is as wide as two vectors of 16 bytes; a short one leaves fewer than eight bytes to be walked one by one.
const LONG: usize = 32;

const SHORT: usize = 8;

// Whether the step of `width` bytes at the place `at` is ASCII. Its bytes are gathered and tested once, since a loop that does not leave early runs
// many bytes wide.
fn is_ascii(s: &[u8], at: usize, width: usize) -> bool
    requires { at + width ≤ length s.now }
    ensures { result ≡ every ascii (take width (drop at s.now)) }
{
    let mut gathered: u8 = 0;
    for i in 0..width {
        gathered |= s[at + i];
    }
    gathered <= 0x7F
}

// The place behind the steps of ASCII from `at` on: at the first step that has another byte, or where no whole step is left.
fn behind_steps(s: &[u8], at: usize, width: usize) -> usize
    requires { (0 < width) × (at ≤ length s.now) }
    ensures { Stepped s.now at width result }
{
    let mut next = at;
    while s.len() - next >= width {
        if !is_ascii(s, next, width) {
            return next;
        }
        next += width;
    }
    next // fewer bytes than a step are left
}

// The place behind the longest run of ASCII from `at` on: by long steps, then by short ones where no long one goes on, then byte by byte. The widths are
// constants here, so that the compiler can lay out the bytes of a step side by side.
pub(crate) fn behind_run(s: &[u8], at: usize) -> usize
    requires { at ≤ length s.now }
    ensures { (at ≤ result) × (result ≤ length s.now) × (drop result s.now ≡ behind_ascii (drop at s.now)) }
{
    let by_long = behind_steps(s, at, LONG);
    let by_short = behind_steps(s, by_long, SHORT);
    behind_steps(s, by_short, 1)
}
