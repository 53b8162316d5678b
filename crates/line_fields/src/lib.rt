// What the tokens of a line say, where the rules of every key hold: the payload's length, `chk`, and the fields that a datagram has too.
#![tactic(auto)]

ghost use Rattle.std.specs.Prelude.{◌≡◌};
ghost use Rattle.line_groups.specs.Answers.{payload_by, singles_by, fragment_by, stream_by};
ghost use Rattle.line_fields.specs.Fields.{values_of};
ghost use Rattle.line_fields.specs.Steps.{slot_value, gather_of};

use envelope::{Envelope, Fragment, Stream};
use headers::Headers;
use line_groups::{Payload, Singles};
use line_places::Place;

#[derive(Clone, Copy)]
pub struct Values {
    pub len: u32,
    pub deflated: bool,
    pub chk: Option<u16>,
    pub fields: Envelope,
}

// ---- the groups, by the places of their keys' values

fn payload(t: &[u8], slots: [Option<Place>; 13]) -> Option<Payload>
    ensures { result ≡ payload_by (slot_value t.now slots 0) (slot_value t.now slots 1) (slot_value t.now slots 3) }
{
    let len = line_places::value(t, slots[names::LEN]);
    let fmt = line_places::value(t, slots[names::FMT]);
    let clen = line_places::value(t, slots[names::CLEN]);
    line_groups::read_payload(len, fmt, clen)
}

fn singles(t: &[u8], slots: [Option<Place>; 13]) -> Option<Singles>
    ensures { result ≡ singles_by (slot_value t.now slots 2) (slot_value t.now slots 6) (slot_value t.now slots 5) }
{
    let salt = line_places::value(t, slots[names::S]);
    let ttl = line_places::value(t, slots[names::TTL]);
    let chk = line_places::value(t, slots[names::CHK]);
    line_groups::read_singles(salt, ttl, chk)
}

fn fragment(t: &[u8], slots: [Option<Place>; 13]) -> Option<Option<Fragment>>
    ensures { result ≡ fragment_by (slot_value t.now slots 8) (slot_value t.now slots 9) }
{
    let mid = line_places::value(t, slots[names::MID]);
    let frag = line_places::value(t, slots[names::FRAG]);
    line_groups::read_fragment(mid, frag)
}

fn stream(t: &[u8], slots: [Option<Place>; 13]) -> Option<Option<Stream>>
    ensures { result ≡ stream_by (slot_value t.now slots 10) (slot_value t.now slots 11) (slot_value t.now slots 12) }
{
    let sid = line_places::value(t, slots[names::SID]);
    let sn = line_places::value(t, slots[names::SN]);
    let gt = line_places::value(t, slots[names::GT]);
    line_groups::read_stream(sid, sn, gt)
}

// The fields of the message, from the groups that were read and the texts of `src` and `dst`.
#[tactic(auto, unfolding(crate::specs::Steps::gather_of))]
fn gather(
    id: u32,
    t: &[u8],
    slots: [Option<Place>; 13],
    q: Singles,
    fragment: Option<Fragment>,
    stream: Option<Stream>,
    headers: &Headers,
) -> Envelope
    ensures { result ≡ gather_of id t.now slots q fragment stream headers.now }
{
    let from = slots[names::SRC];
    let src = line_places::value(t, from).map(|s| envelope::call_text(s));
    let dst = line_places::value(t, slots[names::DST]).unwrap_or(&[]);
    Envelope {
        id,
        salt: q.salt,
        ttl: q.ttl,
        src,
        fragment,
        stream,
        headers: *headers,
        dst: envelope::address_text(dst),
    }
}

// What the tokens say; nothing where the rules of a key do not hold. What a `?` hands on is a whole answer, in room of its own that is cleared
// at the start, so each test leaves by a `return`.
pub fn read_values(id: u32, t: &[u8]) -> Option<Values>
    ensures { result ≡ values_of id t.now }
{
    let Some(places) = line_places::read_places(t) else {
        return None;
    };
    let slots = places.slots;
    let Some(p) = payload(t, slots) else {
        return None;
    };
    let Some(q) = singles(t, slots) else {
        return None;
    };
    let Some(f) = fragment(t, slots) else {
        return None;
    };
    let Some(m) = stream(t, slots) else {
        return None;
    };
    let fields = gather(id, t, slots, q, f, m, &places.headers);
    Some(Values {
        len: p.len,
        deflated: p.deflated,
        chk: q.chk,
        fields,
    })
}
