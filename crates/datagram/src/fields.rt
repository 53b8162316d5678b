// The fields before the payload length. Each group is read from the part that begins where the last one ended.
ghost use Rattle.std.specs.Prelude.{◌≡◌, ◌≤◌, length, drop};
ghost use Rattle.octets.specs.Reading.{read_as};
ghost use Rattle.layout.specs.Layout.{options, message, message_of};
ghost use Rattle.datagram.specs.Answer.{says, after_fields};
ghost use Rattle.datagram.specs.Groups.{options_held, opening_in, ends_in, way_in, options_in};

use crate::DatagramRead;
use datagram_lists::Way;
use datagram_numbers::Opening;
use datagram_texts::Ends;
use envelope::{Envelope, Fragment, Stream};
use headers::Headers;
use layout::{Datagram, Flags};
use refusals::Refusal;

// Fragment, stream, headers.
#[derive(Clone, Copy)]
struct Options {
    fragment: Option<Fragment>,
    stream: Option<Stream>,
    headers: Headers,
}

// Fragment, stream, headers.
#[tactic(auto, unfolding(layout::specs::Layout::options))]
fn read_options(d: &[u8], flags: Flags) -> Option<(Options, usize)>
    ensures { result ≡ read_as options_held ((options flags).parse d.now) }
{
    let (fragment, n1) = datagram_numbers::read_fragment(d, flags.fragment)?;
    let d1 = &d[n1..];
    let (stream, n2) = datagram_texts::read_stream(d1, flags.stream)?;
    let d2 = &d1[n2..];
    let (headers, n3) = datagram_lists::read_headers(d2, flags.headers)?;
    let options = Options {
        fragment,
        stream,
        headers,
    };
    Some((options, n1 + n2 + n3))
}

// The message of the groups.
fn put_together(o: &Opening, e: &Ends, w: &Way, p: &Options) -> Datagram
    ensures { result ≡ message_of ((opening_in o.now, (ends_in e.now, (way_in w.now, options_in p.now)))) }
{
    let fields = Envelope {
        id: o.id,
        salt: o.salt,
        ttl: o.ttl,
        src: e.src,
        fragment: p.fragment,
        stream: p.stream,
        headers: p.headers,
        dst: e.dst,
    };
    Datagram {
        fields,
        link: e.link,
        flood: w.flood,
        route: w.route,
        hops: w.hops,
    }
}

// The fields of a valid message behind the version, and where its payload stands. What holds large arrays is taken by reference out of what was
// found, and the message goes into the answer as soon as it is put together: neither is copied on the way.
pub(crate) fn read_message(d: &[u8]) -> Result<DatagramRead, Refusal>
    requires { 1 ≤ length d.now }
    ensures { says result ≡ after_fields d.now (message.parse (drop 1 d.now)) }
{
    let d0 = &d[1..];
    let Some((opening, n1)) = datagram_numbers::read_opening(d0) else {
        return Err(Refusal::DatagramMalformed);
    };
    let flags = opening.flags;
    let d1 = &d0[n1..];
    let Some((ends, n2)) = datagram_texts::read_ends(d1, flags) else {
        return Err(Refusal::DatagramMalformed);
    };
    let d2 = &d1[n2..];
    let way_found = datagram_lists::read_way(d2, flags);
    let Some((way, n3)) = &way_found else {
        return Err(Refusal::DatagramMalformed);
    };
    let d3 = &d2[*n3..];
    let options_found = read_options(d3, flags);
    let Some((options, n4)) = &options_found else {
        return Err(Refusal::DatagramMalformed);
    };
    let message = put_together(&opening, &ends, way, options);
    if !layout::is_valid(&message) {
        return Err(Refusal::DatagramMalformed);
    }
    let (payload_at, payload_len) = crate::find_payload(d, 1 + n1 + n2 + *n3 + *n4)?;
    Ok(DatagramRead {
        message,
        payload_at,
        payload_len,
    })
}
