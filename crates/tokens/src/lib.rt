// The words of a line: a text cut at a byte, as at a space or at the first `=`. What is answered of a text is a part of the text.
#![tactic(auto)]

ghost use Rattle.std.specs.Prelude.{◌≡◌, ◌≤◌, length};
ghost use Rattle.tokens.specs.Cuts.{has, before, after};

// How many bytes stand before the first `c`: all of them where there is none.
#[tactic(auto, unfolding(crate::specs::Cuts::before))]
pub fn bytes_before(s: &[u8], c: u8) -> usize
    ensures { (result ≡ length (before c s.now)) × (result ≤ length s.now) }
{
    s.iter().take_while(|x| **x != c).count()
}

// Whether the byte `c` stands in a text.
#[tactic(auto, unfolding(crate::specs::Cuts::has))]
pub fn has_byte(s: &[u8], c: u8) -> bool
    ensures { result ≡ has c s.now }
{
    s.contains(&c)
}

// What stands before the first `c`: all of the text where there is none.
#[tactic(auto, unfolding(crate::specs::Cuts::before))]
pub fn before_byte(s: &[u8], c: u8) -> &[u8]
    ensures { result.now ≡ before c s.now }
{
    &s[..bytes_before(s, c)]
}

// What stands behind the first `c`: nothing where there is none.
#[tactic(auto, unfolding(crate::specs::Cuts::before, crate::specs::Cuts::after))]
pub fn after_byte(s: &[u8], c: u8) -> &[u8]
    ensures { result.now ≡ after c s.now }
{
    let n = bytes_before(s, c);
    if n == s.len() {
        return &s[..0];
    }
    &s[n + 1..]
}
