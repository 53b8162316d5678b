// Document 02, W4: a letter means the same in either case.
#![tactic(auto)]

ghost use Rattle.std.specs.Prelude.{◌≡◌};
ghost use Rattle.octets.specs.Words.{◌=?◌};
ghost use Rattle.octets.specs.Bytes.{same};
ghost use Rattle.letters.specs.Letters.{upper, folded};

// The byte, with a to z become A to Z.
#[tactic(auto, unfolding(crate::specs::Letters::upper))]
fn upper(x: u8) -> u8
    ensures { result ≡ upper x }
{
    match x {
        b'a'..=b'z' => x - 32,
        _ => x,
    }
}

// Whether two bytes agree after a to z become A to Z. They are folded only where they differ, since most bytes that are compared are equal.
fn agree(x: u8, y: u8) -> bool
    ensures { result ≡ (upper x =? upper y) }
{
    x == y || upper(x) == upper(y)
}

// Whether two texts agree after a to z become A to Z. Lengths are compared first, then the bytes from the front, so that unlike texts part at once.
pub fn alike(a: &[u8], b: &[u8]) -> bool
    ensures { result ≡ same (folded a.now) (folded b.now) }
{
    if a.len() != b.len() {
        return false;
    }
    // By index: `zip` with `all` takes more than twice as long.
    for i in 0..a.len() {
        if !agree(a[i], b[i]) {
            return false;
        }
    }
    true
}
