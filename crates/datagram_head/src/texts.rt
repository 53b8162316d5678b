// Texts with their lengths before them: of each array the bytes up to its length, and no others.
ghost use Rattle.std.specs.Prelude.{◌≡◌, take};
ghost use Rattle.octets.specs.Field.{given_print};
ghost use Rattle.layout.specs.Layout.{call, address, stream, header};
ghost use Rattle.datagram_head.specs.Steps.{Room, Put, text_bytes};

use crate::numbers;
use envelope::{AddressText, CallText, Stream};
use headers::Header;

// The first n bytes behind their length in `width` bytes.
fn put_text(a: &[u8], n: usize, width: usize, out: &mut [u8], at: usize) -> usize
    requires { Room (text_bytes width (take n a.now)) at out.old }
    ensures { Put (text_bytes width (take n a.now)) at out.old result out.new }
{
    let s = lengths::part(a, n);
    let next = numbers::put_number(s.len() as u64, width, out, at);
    octets::copy_at(s, out, next);
    next + s.len()
}

pub(crate) fn put_call(t: &CallText, width: usize, out: &mut [u8], at: usize) -> usize
    requires { Room ((call width).print t.now) at out.old }
    ensures { Put ((call width).print t.now) at out.old result out.new }
{
    put_text(&t.bytes, t.len, width, out, at)
}

// Originator or link source, where it is there.
pub(crate) fn put_call_if(t: Option<CallText>, out: &mut [u8], at: usize) -> usize
    requires { Room (given_print (call 2) t) at out.old }
    ensures { Put (given_print (call 2) t) at out.old result out.new }
{
    let Some(t) = t else {
        return at;
    };
    put_call(&t, 2, out, at)
}

pub(crate) fn put_address(t: &AddressText, out: &mut [u8], at: usize) -> usize
    requires { Room (address.print t.now) at out.old }
    ensures { Put (address.print t.now) at out.old result out.new }
{
    put_text(&t.bytes, t.len, 2, out, at)
}

// Stream id, number and gap timeout, where they are there.
pub(crate) fn put_stream(s: &Option<Stream>, out: &mut [u8], at: usize) -> usize
    requires { Room (given_print stream s.now) at out.old }
    ensures { Put (given_print stream s.now) at out.old result out.new }
{
    let Some(s) = s else {
        return at;
    };
    let a = put_text(&s.sid.bytes, s.sid.len, 1, out, at);
    let b = numbers::put_number(s.sn as u64, 4, out, a);
    numbers::put_number(s.gt as u64, 4, out, b)
}

pub(crate) fn put_header(h: &Header, out: &mut [u8], at: usize) -> usize
    requires { Room (header.print h.now) at out.old }
    ensures { Put (header.print h.now) at out.old result out.new }
{
    let a = put_text(&h.key, h.key_len, 2, out, at);
    put_text(&h.value, h.value_len, 2, out, a)
}
