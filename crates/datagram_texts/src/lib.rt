// Document 01, "The datagram": its texts, each behind its length. Destination, originator and link source; a hop; a header; a stream's id and numbers.
// Each field is read from the part that begins where the last one ended. A reader answers its value with the number of bytes that it took, and
// nothing where its field is not there.
#![tactic(auto)]

ghost use Rattle.std.specs.Prelude.{◌≡◌};
ghost use Rattle.octets.specs.Reading.{read_as};
ghost use Rattle.layout.specs.Layout.{call, header, ends, stream_if};
ghost use Rattle.datagram_texts.specs.Found.{ends_held};

use envelope::{AddressText, CallText, Stream};
use headers::Header;
use layout::Flags;

mod texts;

// Destination, originator, link source.
#[derive(Clone, Copy)]
pub struct Ends {
    pub dst: AddressText,
    pub src: Option<CallText>,
    pub link: Option<CallText>,
}

// A hop: a callsign behind a length of one byte.
#[tactic(auto, unfolding(layout::specs::Layout::call))]
pub fn read_hop(d: &[u8]) -> Option<(CallText, usize)>
    ensures { result ≡ read_as (λ t. t) ((call 1).parse d.now) }
{
    let (s, used) = texts::text8(d, 12)?;
    Some((envelope::call_text(s), used))
}

// A header: its key, then its value.
#[tactic(auto, unfolding(layout::specs::Layout::header))]
pub fn read_header(d: &[u8]) -> Option<(Header, usize)>
    ensures { result ≡ read_as (λ h. h) (header.parse d.now) }
{
    let (key, n1) = texts::text16(d, 32)?;
    let d1 = &d[n1..];
    let (value, n2) = texts::text16(d1, 128)?;
    Some((envelope::header_text(key, value), n1 + n2))
}

// Destination, originator, link source.
#[tactic(auto, unfolding(layout::specs::Layout::ends))]
pub fn read_ends(d: &[u8], flags: Flags) -> Option<(Ends, usize)>
    ensures { result ≡ read_as ends_held ((ends flags).parse d.now) }
{
    let (dst, n1) = texts::read_address(d)?;
    let d1 = &d[n1..];
    let (src, n2) = texts::read_call(d1, flags.originator)?;
    let d2 = &d1[n2..];
    let (link, n3) = texts::read_call(d2, flags.link)?;
    Some((Ends { dst, src, link }, n1 + n2 + n3))
}

// Stream id, number and gap timeout, where the flag is set.
pub fn read_stream(d: &[u8], has: bool) -> Option<(Option<Stream>, usize)>
    ensures { result ≡ read_as (λ s. s) ((stream_if has).parse d.now) }
{
    if !has {
        return Some((None, 0));
    }
    let (sid, n1) = texts::read_name(d)?;
    let d1 = &d[n1..];
    let (sn, n2) = octets::read::<u32>(d1)?;
    let d2 = &d1[n2..];
    let (gt, n3) = octets::read::<u32>(d2)?;
    Some((Some(Stream { sid, sn, gt }), n1 + n2 + n3))
}
