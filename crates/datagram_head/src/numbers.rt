// Numbers, flags and ids, each put at its place; those that may be absent, where they are there. Every put answers the place behind it.
ghost use Rattle.std.specs.Prelude.{◌≡◌, ◌*◌, ◌≤◌};
ghost use Rattle.octets.specs.Field.{num, signed_num, given_print};
ghost use Rattle.layout.specs.Layout.{one, flags_number, flags, hex_id, fragment};
ghost use Rattle.datagram_head.specs.Steps.{Room, Put};

use envelope::Fragment;
use layout::Flags;

pub(crate) fn put_number(v: u64, width: usize, out: &mut [u8], at: usize) -> usize
    requires { Room ((num width).print v) at out.old }
    ensures { Put ((num width).print v) at out.old result out.new }
{
    octets::put_number(v, width, out, at);
    at + width
}

// A number, where it is there.
pub(crate) fn put_if(v: Option<u64>, width: usize, out: &mut [u8], at: usize) -> usize
    requires { Room (given_print (num width) v) at out.old }
    ensures { Put (given_print (num width) v) at out.old result out.new }
{
    let Some(v) = v else {
        return at;
    };
    put_number(v, width, out, at)
}

// The weight of a bit that is set.
fn bit(on: bool, weight: u64) -> u64
    ensures { (result ≡ weight * one on) × (result ≤ weight) }
{
    if on { weight } else { 0 }
}

fn number_of(f: Flags) -> u64
    ensures { result ≡ flags_number f }
{
    bit(f.salt, 1)
        + bit(f.ttl, 2)
        + bit(f.headers, 4)
        + bit(f.originator, 8)
        + bit(f.link, 16)
        + bit(f.flood, 32)
        + bit(f.route, 64)
        + bit(f.hops, 128)
        + bit(f.fragment, 256)
        + bit(f.stream, 512)
}

pub(crate) fn put_flags(f: Flags, out: &mut [u8], at: usize) -> usize
    requires { Room (flags.print f) at out.old }
    ensures { Put (flags.print f) at out.old result out.new }
{
    put_number(number_of(f), 2, out, at)
}

// An id, or a master id: 7 of `0-9a-f`.
pub(crate) fn put_id(id: u32, out: &mut [u8], at: usize) -> usize
    requires { Room (hex_id.print id) at out.old }
    ensures { Put (hex_id.print id) at out.old result out.new }
{
    text::write_id(id, out, at);
    at + 7
}

pub(crate) fn put_salt(salt: Option<i64>, out: &mut [u8], at: usize) -> usize
    requires { Room (given_print signed_num salt) at out.old }
    ensures { Put (given_print signed_num salt) at out.old result out.new }
{
    let Some(salt) = salt else {
        return at;
    };
    octets::put_i64(salt, out, at);
    at + 8
}

// Master id, index and total, where they are there.
pub(crate) fn put_fragment(part: Option<Fragment>, out: &mut [u8], at: usize) -> usize
    requires { Room (given_print fragment part) at out.old }
    ensures { Put (given_print fragment part) at out.old result out.new }
{
    let Some(f) = part else {
        return at;
    };
    let a = put_id(f.mid, out, at);
    let b = put_number(f.index as u64, 2, out, a);
    put_number(f.total as u64, 2, out, b)
}
