// A line read. Its tokens are read in one pass, so that keys may come in any order; the fields are then held to the rules that every message
// keeps (`envelope`).
#![tactic(auto)]

ghost use Rattle.std.specs.Prelude.{◌≡◌};
ghost use Rattle.line.specs.Reading.{says, read_of};
ghost use Rattle.line.specs.Steps.{right_chk};

use envelope::Envelope;
use refusals::Refusal;

// An offer as the line has it: the payload's length, and the fields that a datagram has too.
#[derive(Clone, Copy)]
pub struct Line {
    pub len: u32,
    pub fields: Envelope,
}

// Whether the check is that of the bytes before the space that precedes `chk=`: the last nine are ` chk=` and four digits.
#[tactic(auto, unfolding(crate::specs::Steps::right_chk))]
fn is_right(s: &[u8], chk: Option<u16>) -> bool
    ensures { result ≡ right_chk s.now chk }
{
    match chk {
        Some(chk) => crc16::crc(&s[..s.len().saturating_sub(9)]) == chk,
        None => true,
    }
}

// Reads a line, which is given without its LF. What a `?` hands on is a whole answer, in room of its own that is cleared at the start, so only
// the last test leaves by one.
pub fn read_line(s: &[u8]) -> Result<Line, Refusal>
    ensures { says result ≡ read_of s.now }
{
    let Some(id) = line_frame::read_head(s) else {
        return Err(Refusal::LineMalformed);
    };
    let Some(v) = line_fields::read_values(id, line_frame::rest(s)) else {
        return Err(Refusal::LineMalformed);
    };
    let fields = v.fields;
    let valid = envelope::is_valid(fields);
    let right = is_right(s, v.chk);
    line_refusals::refuses_reading(!valid, !right, v.deflated, v.len)?;
    Ok(Line { len: v.len, fields })
}
