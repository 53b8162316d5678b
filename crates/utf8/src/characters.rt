// One character of more than one byte: where the text goes on behind it, or none where it breaks the rows of RFC 3629.
ghost use Rattle.std.specs.Prelude.{◌+◌, ◌<◌, ◌≤◌, [], ◌∷◌, length, replicate, get_or};
ghost use Rattle.utf8.specs.Utf8.{tail, ◌to◌};
ghost use Rattle.utf8.specs.Steps.{Passed};

// `count` tail bytes from the place `from` on.
fn tails(s: &[u8], from: usize, count: usize) -> Option<usize>
    requires { from ≤ length s.now }
    ensures { Passed s.now (replicate count tail) from from result }
{
    for done in 0..count {
        let at = from + done;
        if at >= s.len() {
            return None;
        }
        if s[at] < 0x80 {
            return None;
        }
        if s[at] > 0xBF {
            return None;
        }
    }
    Some(from + count)
}

// A byte from `low` to `high` at the place `from`, then `count` tail bytes.
fn behind(s: &[u8], from: usize, low: u8, high: u8, count: usize) -> Option<usize>
    requires { from ≤ length s.now }
    ensures { Passed s.now (low to high ∷ replicate count tail) from from result }
{
    if from >= s.len() {
        return None;
    }
    if s[from] < low {
        return None;
    }
    if s[from] > high {
        return None;
    }
    tails(s, from + 1, count)
}

// The character at the place `i`, whose first byte is above 0x7F.
#[tactic(auto, using(crate::proofs::Runs::two_bytes))]
pub(crate) fn character(s: &[u8], i: usize) -> Option<usize>
    requires { (i < length s.now) × (127 < get_or s.now i 0) }
    ensures { Passed s.now [] i (i + 1) result }
{
    match s[i] {
        0xC2..=0xDF => behind(s, i + 1, 0x80, 0xBF, 0),
        0xE0 => behind(s, i + 1, 0xA0, 0xBF, 1),
        0xE1..=0xEC => behind(s, i + 1, 0x80, 0xBF, 1),
        0xED => behind(s, i + 1, 0x80, 0x9F, 1),
        0xEE..=0xEF => behind(s, i + 1, 0x80, 0xBF, 1),
        0xF0 => behind(s, i + 1, 0x90, 0xBF, 2),
        0xF1..=0xF3 => behind(s, i + 1, 0x80, 0xBF, 2),
        0xF4 => behind(s, i + 1, 0x80, 0x8F, 2),
        _ => None,
    }
}
