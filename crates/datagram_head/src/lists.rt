// Lists with their counts before them, where they are there.
ghost use Rattle.std.specs.Prelude.{◌≡◌};
ghost use Rattle.octets.specs.Words.{◌≤?◌};
ghost use Rattle.octets.specs.Field.{given_print, many_print};
ghost use Rattle.layout.specs.Layout.{call, header, hops, headers_if};
ghost use Rattle.datagram_head.specs.Steps.{Room, Put};

use crate::{numbers, texts};
use envelope::CallText;
use headers::{Header, Headers};
use layout::Hops;

fn put_hops(hops: &[CallText], out: &mut [u8], at: usize) -> usize
    requires { Room (many_print (call 1) hops.now) at out.old }
    ensures { Put (many_print (call 1) hops.now) at out.old result out.new }
{
    let mut next = at;
    for hop in hops {
        next = texts::put_call(hop, 1, out, next);
    }
    next
}

// The source route or the traversed hops, where they are there. By value, as the headers below: of an array behind a reference the check does not
// tell its length, which the count is cut to.
pub(crate) fn put_route(route: Option<Hops>, out: &mut [u8], at: usize) -> usize
    requires { Room (given_print hops route) at out.old }
    ensures { Put (given_print hops route) at out.old result out.new }
{
    let Some(h) = route else {
        return at;
    };
    let n = lengths::at_most(h.count, 16);
    let next = numbers::put_number(n as u64, 1, out, at);
    put_hops(&h.items[..n], out, next)
}

// The hops' twin stays: a call that puts one value of any field would need that field in its contract.
fn put_items(items: &[Header], out: &mut [u8], at: usize) -> usize
    requires { Room (many_print header items.now) at out.old }
    ensures { Put (many_print header items.now) at out.old result out.new }
{
    let mut next = at;
    for item in items {
        next = texts::put_header(item, out, next);
    }
    next
}

// The headers, where there are any.
pub(crate) fn put_headers(h: Headers, out: &mut [u8], at: usize) -> usize
    requires { Room ((headers_if (1 ≤? h.count)).print h) at out.old }
    ensures { Put ((headers_if (1 ≤? h.count)).print h) at out.old result out.new }
{
    if h.count < 1 {
        return at;
    }
    let n = lengths::at_most(h.count, 8);
    let next = numbers::put_number(n as u64, 2, out, at);
    put_items(&h.items[..n], out, next)
}
