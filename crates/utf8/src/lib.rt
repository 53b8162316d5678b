// Well-formed UTF-8: RFC 3629, section 4.
#![tactic(auto)]

ghost use Rattle.std.specs.Prelude.{◌≡◌};
ghost use Rattle.utf8.specs.Utf8.{utf8};

mod ascii;
mod characters;

// Whether the bytes are well-formed UTF-8: no overlong form, no surrogate, nothing above U+10FFFF.
// A run of ASCII is passed as a whole; the rules of longer characters are entered at a byte above 0x7F alone.
#[tactic(auto, using(crate::proofs::AsciiRuns::ascii_led))]
pub fn well_formed(s: &[u8]) -> bool
    ensures { result ≡ utf8 s.now }
{
    let mut i = 0;
    while i < s.len() {
        if s[i] <= 0x7F {
            i = ascii::behind_run(s, i + 1);
        } else {
            let Some(to) = characters::character(s, i) else {
                return false;
            };
            i = to;
        }
    }
    true
}
