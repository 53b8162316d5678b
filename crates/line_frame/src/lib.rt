// The line's text, its first two words, and the text of the tokens behind them.
#![tactic(auto)]

ghost use Rattle.std.specs.Prelude.{◌≡◌};
ghost use Rattle.octets.specs.Words.{every};
ghost use Rattle.line_frame.specs.Frame.{plain, is_text, line_head, rest_of};

// Whether no byte is below 0x20 and none is 0x7F.
#[tactic(auto, unfolding(crate::specs::Frame::plain))]
fn is_plain(s: &[u8]) -> bool
    ensures { result ≡ every plain s.now }
{
    s.iter().all(|x| 0x20 <= *x && *x != 0x7F)
}

// Whether these may be the bytes of a line.
#[tactic(auto, unfolding(crate::specs::Frame::is_text))]
fn is_text(s: &[u8]) -> bool
    ensures { result ≡ is_text s.now }
{
    s.len() <= 512 && utf8::well_formed(s) && is_plain(s)
}

// The id, the second word, where the bytes may be a line's and the first word is `ihave`.
#[tactic(auto, unfolding(crate::specs::Frame::line_head))]
pub fn read_head(s: &[u8]) -> Option<u32>
    ensures { result ≡ line_head s.now }
{
    if !is_text(s) {
        return None;
    }
    if tokens::before_byte(s, b' ') != b"ihave".as_slice() {
        return None;
    }
    text::read_id(tokens::before_byte(tokens::after_byte(s, b' '), b' '))
}

// What stands behind the id: the text of the tokens.
pub fn rest(s: &[u8]) -> &[u8]
    ensures { result.now ≡ rest_of s.now }
{
    tokens::after_byte(tokens::after_byte(s, b' '), b' ')
}
