// Document 01, "Names and fields": stream id, header key and value, the thirteen reserved keys.
#![tactic(auto)]

ghost use Rattle.std.specs.Prelude.{◌≡◌};
ghost use Rattle.names.specs.Reserved.{reserved, key_place};
ghost use Rattle.names.specs.Texts.{stream_id, header_key, header_value};

mod texts;
mod words;

// A key's spelling, padded: its first `len` bytes.
#[derive(Clone, Copy)]
pub struct Word {
    pub text: [u8; 4],
    pub len: usize,
}

// The thirteen reserved keys: len, fmt, s, clen, dst, chk, ttl, src, mid, frag, sid, sn, gt.
pub const RESERVED: [Word; 13] = [
    Word {
        text: [b'l', b'e', b'n', 0],
        len: 3,
    },
    Word {
        text: [b'f', b'm', b't', 0],
        len: 3,
    },
    Word {
        text: [b's', 0, 0, 0],
        len: 1,
    },
    Word {
        text: [b'c', b'l', b'e', b'n'],
        len: 4,
    },
    Word {
        text: [b'd', b's', b't', 0],
        len: 3,
    },
    Word {
        text: [b'c', b'h', b'k', 0],
        len: 3,
    },
    Word {
        text: [b't', b't', b'l', 0],
        len: 3,
    },
    Word {
        text: [b's', b'r', b'c', 0],
        len: 3,
    },
    Word {
        text: [b'm', b'i', b'd', 0],
        len: 3,
    },
    Word {
        text: [b'f', b'r', b'a', b'g'],
        len: 4,
    },
    Word {
        text: [b's', b'i', b'd', 0],
        len: 3,
    },
    Word {
        text: [b's', b'n', 0, 0],
        len: 2,
    },
    Word {
        text: [b'g', b't', 0, 0],
        len: 2,
    },
];

// The places of the keys in the table.
pub const LEN: usize = 0;

pub const FMT: usize = 1;

pub const S: usize = 2;

pub const CLEN: usize = 3;

pub const DST: usize = 4;

pub const CHK: usize = 5;

pub const TTL: usize = 6;

pub const SRC: usize = 7;

pub const MID: usize = 8;

pub const FRAG: usize = 9;

pub const SID: usize = 10;

pub const SN: usize = 11;

pub const GT: usize = 12;

// Whether a text is a stream id.
#[tactic(auto, unfolding(crate::specs::Texts::stream_id))]
pub fn is_stream_id(s: &[u8]) -> bool
    ensures { result ≡ stream_id s.now }
{
    texts::is_id_text(s, 255)
}

// A key's place in the table of the reserved keys: 13 where it is none of them.
// The number stays, and no `Option`: `key_place` says it, and the places of a line's fields are looked up by it.
pub fn reserved_place(s: &[u8]) -> usize
    ensures { result ≡ key_place s.now }
{
    let table = RESERVED;
    for (i, word) in table.iter().enumerate() {
        if words::spells(s, *word) {
            return i;
        }
    }
    13
}

// Whether a key is one of the thirteen reserved.
fn is_reserved(s: &[u8]) -> bool
    ensures { result ≡ reserved s.now }
{
    reserved_place(s) < 13
}

// Whether a text is a header's key.
#[tactic(auto, unfolding(crate::specs::Texts::header_key))]
pub fn is_header_key(s: &[u8]) -> bool
    ensures { result ≡ header_key s.now }
{
    texts::is_id_text(s, 32) && !is_reserved(s)
}

// Whether a text is a header's value.
#[tactic(auto, unfolding(crate::specs::Texts::header_value))]
pub fn is_header_value(s: &[u8]) -> bool
    ensures { result ≡ header_value s.now }
{
    s.len() <= 128 && texts::is_ruled(s, true)
}
