// A line written. It is put together in an array of its own, and goes into the lent buffer whole or not at all.
#![tactic(auto)]

ghost use Rattle.std.specs.Prelude.{◌≡◌};
ghost use Rattle.line_draft.specs.Drafts.{added, Adds};
ghost use Rattle.line_writer.specs.Answer.{says, write_answer, write_left};
ghost use Rattle.line_writer.specs.Steps.{chk_behind};

use line::Line;
use line_draft::Draft;
use refusals::Refusal;

// ` chk=` and the check of the bytes before it; `chk` always.
fn add_chk(line: &mut Draft)
    ensures { Adds (added (chk_behind line.old)) line.old.bytes line.old.len line.new.len line.new.bytes }
{
    let chk = crc16::crc(lengths::part(&line.bytes, line.len));
    line.put(b" chk=");
    line.put_chk(chk);
}

// Writes a message as a line with its LF at the front of a lent buffer, and answers how many bytes that are. A message that the rules forbid
// or that is too long for a line, a payload that may not be sent, a buffer without room: each is refused in this order, and no byte changes.
pub fn write_line(m: Line, out: &mut [u8]) -> Result<usize, Refusal>
    ensures { (says result ≡ write_answer m out.old) × (out.new ≡ write_left m out.old) }
{
    let valid = envelope::is_valid(m.fields);
    let mut line = line_body::print_body(m);
    add_chk(&mut line);
    let n = line.len;
    line_refusals::refuses_writing(valid, m.len, n, out.len())?;
    octets::copy_at(lengths::part(&line.bytes, n), out, 0);
    out[n] = b'\n';
    Ok(n + 1)
}
