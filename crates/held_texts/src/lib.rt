// Texts held in arrays, zero past their lengths; a text that is too long for its array is held as none.
#![tactic(auto)]

ghost use Rattle.std.specs.Prelude.{◌≡◌, length};
ghost use Rattle.octets.specs.Bytes.{front};
ghost use Rattle.held_texts.specs.Texts.{fitted, header_text, no_headers, with_header};

use headers::{Header, Headers};

// The text at the array's front, and its length; a text that is too long changes nothing.
pub fn fill(s: &[u8], out: &mut [u8]) -> usize
    ensures { (result ≡ length (fitted (length out.old) s.now)) × (out.new ≡ front (fitted (length out.old) s.now) out.old) }
{
    if octets::copy_at(s, out, 0) {
        return s.len();
    }
    0
}

pub fn header_text(key: &[u8], value: &[u8]) -> Header
    ensures { result ≡ header_text key.now value.now }
{
    let mut k = [0u8; 32];
    let mut v = [0u8; 128];
    let key_len = fill(key, &mut k);
    let value_len = fill(value, &mut v);
    Header {
        key: k,
        key_len,
        value: v,
        value_len,
    }
}

// No headers: eight empty ones, of which none counts.
pub fn no_headers() -> Headers
    ensures { result ≡ no_headers }
{
    let none = Header {
        key: [0u8; 32],
        key_len: 0,
        value: [0u8; 128],
        value_len: 0,
    };
    Headers {
        items: [none; 8],
        count: 0,
    }
}

// One header more; of eight there are no more.
#[tactic(auto, unfolding(crate::specs::Texts::with_header))]
pub fn with_header(h: Headers, x: Header) -> Headers
    ensures { result ≡ with_header h x }
{
    if 8 <= h.count {
        return h;
    }
    let mut items = h.items;
    items[h.count] = x;
    Headers {
        items,
        count: h.count + 1,
    }
}
