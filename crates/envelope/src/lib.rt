// Document 01, "Names and fields": the fields that a line and a datagram share, and one set of rules for them.
// A message is its fields up to their lengths: what lies past a length is no part of it.
#![tactic(auto)]

ghost use Rattle.std.specs.Prelude.{◌≡◌};
ghost use Rattle.envelope.specs.Texts.{call_text, address_text, stream_text, blank_envelope};
ghost use Rattle.envelope.specs.Rules.{call_in, envelope};

use headers::Headers;
pub use held_texts::{header_text, with_header};

mod rules;

// A callsign: the first `len` bytes.
#[derive(Clone, Copy)]
pub struct CallText {
    pub len: usize,
    pub bytes: [u8; 12],
}

// A destination: the first `len` bytes.
#[derive(Clone, Copy)]
pub struct AddressText {
    pub len: usize,
    pub bytes: [u8; 45],
}

// A stream id: the first `len` bytes.
#[derive(Clone, Copy)]
pub struct StreamText {
    pub len: usize,
    pub bytes: [u8; 255],
}

// Fragment `index` of `total` of the message `mid`.
#[derive(Clone, Copy)]
pub struct Fragment {
    pub mid: u32,
    pub index: u16,
    pub total: u16,
}

// A stream: its id, the message's number, and how long a gap before it may stand open.
#[derive(Clone, Copy)]
pub struct Stream {
    pub sid: StreamText,
    pub sn: u32,
    pub gt: u32,
}

// The shared fields, in the order in which the line's writer has them, each that may be absent as an Option; no headers are a count of 0.
#[derive(Clone, Copy)]
pub struct Envelope {
    pub id: u32,
    pub salt: Option<i64>,
    pub ttl: Option<u32>,
    pub src: Option<CallText>,
    pub fragment: Option<Fragment>,
    pub stream: Option<Stream>,
    pub headers: Headers,
    pub dst: AddressText,
}

// ---- texts held in arrays, zero past their lengths; a text that is too long for its array is held as none

#[tactic(auto, unfolding(held_texts::specs::Texts::padded))]
pub fn call_text(s: &[u8]) -> CallText
    ensures { result ≡ call_text s.now }
{
    let mut bytes = [0u8; 12];
    let len = held_texts::fill(s, &mut bytes);
    CallText { len, bytes }
}

#[tactic(auto, unfolding(held_texts::specs::Texts::padded))]
pub fn address_text(s: &[u8]) -> AddressText
    ensures { result ≡ address_text s.now }
{
    let mut bytes = [0u8; 45];
    let len = held_texts::fill(s, &mut bytes);
    AddressText { len, bytes }
}

#[tactic(auto, unfolding(held_texts::specs::Texts::padded))]
pub fn stream_text(s: &[u8]) -> StreamText
    ensures { result ≡ stream_text s.now }
{
    let mut bytes = [0u8; 255];
    let len = held_texts::fill(s, &mut bytes);
    StreamText { len, bytes }
}

// The fields of no message: every number 0, every text empty, and nothing that may be absent.
#[tactic(auto, unfolding(crate::specs::Texts::blank_envelope, held_texts::specs::Texts::padded, held_texts::specs::Texts::fitted))]
pub fn blank() -> Envelope
    ensures { result ≡ blank_envelope }
{
    Envelope {
        id: 0,
        salt: None,
        ttl: None,
        src: None,
        fragment: None,
        stream: None,
        headers: held_texts::no_headers(),
        dst: AddressText {
            len: 0,
            bytes: [0u8; 45],
        },
    }
}

// ---- the rules

// Whether a text held so is a callsign.
#[tactic(auto, unfolding(crate::specs::Rules::call_in))]
pub fn is_call(t: CallText) -> bool
    ensures { result ≡ call_in t }
{
    t.len <= 12 && callsigns::is_callsign(&t.bytes[..t.len])
}

// Whether the fields are those of a valid message.
#[tactic(auto, unfolding(crate::specs::Rules::envelope))]
pub fn is_valid(e: Envelope) -> bool
    ensures { result ≡ envelope e }
{
    if !field_rules::id_rule(e.id) {
        return false;
    }
    if !field_rules::ttl_rule(e.ttl) {
        return false;
    }
    if !rules::src_rule(e.src) {
        return false;
    }
    if !rules::fragment_rule(e.fragment) {
        return false;
    }
    if !rules::stream_rule(e.stream) {
        return false;
    }
    if !headers::are_headers(e.headers) {
        return false;
    }
    rules::dst_rule(e.dst)
}
