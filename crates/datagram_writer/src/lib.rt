// Document 01, "The datagram": version 7, written.
#![tactic(auto)]

ghost use Rattle.std.specs.Prelude.{◌≡◌, length};
ghost use Rattle.datagram_writer.specs.Answer.{says, write_of, write_left};

use layout::Datagram;
use refusals::Refusal;

// Writes a message and its payload as a datagram at the front of a lent buffer, and answers how many bytes it has. A message that the rules forbid, a payload that is too long,
// a buffer without room: each is refused in this order, and no byte changes. What stands before the payload is put together first, so that
// the room is known before the first byte is written.
pub fn write_datagram(m: Datagram, payload: &[u8], out: &mut [u8]) -> Result<usize, Refusal>
    ensures { (says result ≡ write_of m payload.now (length out.old)) × (out.new ≡ write_left m payload.now out.old) }
{
    let mut head = [0u8; 2109];
    let Some(n) = datagram_head::write_head(m, payload.len(), &mut head) else {
        return Err(Refusal::DatagramMalformed);
    };
    if refusals::LONGEST_PAYLOAD < payload.len() {
        return Err(Refusal::PayloadTooLong);
    }
    if out.len() < n + payload.len() {
        return Err(Refusal::BufferTooShort);
    }
    octets::copy_at(&head[..n], out, 0);
    octets::copy_at(payload, out, n);
    Ok(n + payload.len())
}
