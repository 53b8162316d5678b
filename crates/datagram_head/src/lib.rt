// Document 01, "The datagram": what stands before the payload (version, fields, payload length), put together.
#![tactic(auto)]

ghost use Rattle.std.specs.Prelude.{◌≡◌, ◌≤◌, MatchOption};
ghost use Rattle.octets.specs.Bytes.{front};
ghost use Rattle.datagram_bytes.specs.Bytes.{Typed};
ghost use Rattle.datagram_head.specs.Head.{head_bytes, head_length, valid_head};
ghost use Rattle.datagram_head.specs.Steps.{Room, Put};

use layout::Datagram;

mod groups;
mod lists;
mod numbers;
mod texts;

// The bytes before the payload: version, fields, payload length.
fn put_head(m: &Datagram, len: usize, out: &mut [u8]) -> usize
    requires { Typed m.now × Room (head_bytes m.now len) 0 out.old }
    ensures { Put (head_bytes m.now len) 0 out.old result out.new }
{
    let a = numbers::put_number(7, 1, out, 0);
    let b = groups::put_fields(m, out, a);
    numbers::put_number(len as u64, 4, out, b)
}

// The head of a valid message whose payload has `len` bytes, at the front of an array that holds the longest, and how many bytes it has; of a
// message that the rules forbid nothing is written.
pub fn write_head(m: Datagram, len: usize, out: &mut [u8; 2109]) -> Option<usize>
    ensures { (result ≡ head_length m len) × (MatchOption result Unit (λ n. n ≤ 2109)) × (out.new ≡ front (valid_head m len) out.old) }
{
    if !layout::is_valid(&m) {
        return None;
    }
    Some(put_head(&m, len, out))
}
