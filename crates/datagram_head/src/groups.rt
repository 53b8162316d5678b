// Fields one after the other: each is put at the place where the last one ended. The groups are the reader's. A buffer and a place in it stay two
// parameters: octets and text put at a place of a buffer, and a struct of the two would be taken apart at each of their calls.
ghost use Rattle.std.specs.Prelude.{◌≡◌};
ghost use Rattle.layout.specs.Layout.{message_flags, opening_of, ends_of, way_of, options_of, opening, ends, way, options, layout};
ghost use Rattle.datagram_bytes.specs.Bytes.{Typed};
ghost use Rattle.datagram_head.specs.Steps.{Room, Put};

use crate::{lists, numbers, texts};
use layout::{Datagram, Flags};

// The flags of a message; it has headers where it has one or more.
fn flags_of(m: &Datagram) -> Flags
    ensures { result ≡ message_flags m.now }
{
    Flags {
        salt: m.fields.salt.is_some(),
        ttl: m.fields.ttl.is_some(),
        headers: 1 <= m.fields.headers.count,
        originator: m.fields.src.is_some(),
        link: m.link.is_some(),
        flood: m.flood.is_some(),
        route: m.route.is_some(),
        hops: m.hops.is_some(),
        fragment: m.fields.fragment.is_some(),
        stream: m.fields.stream.is_some(),
    }
}

// Flags, id, salt, ttl.
fn put_opening(m: &Datagram, out: &mut [u8], at: usize) -> usize
    requires { Typed m.now × Room (opening.print (opening_of m.now)) at out.old }
    ensures { Put (opening.print (opening_of m.now)) at out.old result out.new }
{
    let e = &m.fields;
    let a = numbers::put_flags(flags_of(m), out, at);
    let b = numbers::put_id(e.id, out, a);
    let c = numbers::put_salt(e.salt, out, b);
    numbers::put_if(e.ttl.map(u64::from), 4, out, c)
}

// Destination, originator, link source.
fn put_ends(m: &Datagram, out: &mut [u8], at: usize) -> usize
    requires { Room ((ends (message_flags m.now)).print (ends_of m.now)) at out.old }
    ensures { Put ((ends (message_flags m.now)).print (ends_of m.now)) at out.old result out.new }
{
    let a = texts::put_address(&m.fields.dst, out, at);
    let b = texts::put_call_if(m.fields.src, out, a);
    texts::put_call_if(m.link, out, b)
}

// Flood hops, source route, traversed hops.
fn put_way(m: &Datagram, out: &mut [u8], at: usize) -> usize
    requires { Room ((way (message_flags m.now)).print (way_of m.now)) at out.old }
    ensures { Put ((way (message_flags m.now)).print (way_of m.now)) at out.old result out.new }
{
    let a = numbers::put_if(m.flood.map(u64::from), 1, out, at);
    let b = lists::put_route(m.route, out, a);
    lists::put_route(m.hops, out, b)
}

// Fragment, stream, headers.
fn put_options(m: &Datagram, out: &mut [u8], at: usize) -> usize
    requires { Room ((options (message_flags m.now)).print (options_of m.now)) at out.old }
    ensures { Put ((options (message_flags m.now)).print (options_of m.now)) at out.old result out.new }
{
    let a = numbers::put_fragment(m.fields.fragment, out, at);
    let b = texts::put_stream(&m.fields.stream, out, a);
    lists::put_headers(m.fields.headers, out, b)
}

// The fields before the payload length.
pub(crate) fn put_fields(m: &Datagram, out: &mut [u8], at: usize) -> usize
    requires { Typed m.now × Room (layout.print m.now) at out.old }
    ensures { Put (layout.print m.now) at out.old result out.new }
{
    let a = put_opening(m, out, at);
    let b = put_ends(m, out, a);
    let c = put_way(m, out, b);
    put_options(m, out, c)
}
