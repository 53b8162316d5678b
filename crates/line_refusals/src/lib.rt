// What refuses a line, read or written. Of several refusals that with the lowest number wins; the buffer's comes last.
#![tactic(auto)]

ghost use Rattle.std.specs.Prelude.{◌≡◌, ◌+◌};
ghost use Rattle.refusals.specs.Refusals.{refusal_in};
ghost use Rattle.line_refusals.specs.Order.{refuses_reading, refuses_writing, line_good};

use refusals::Refusal;

// What refuses a line that was read: whether it is malformed, whether `chk` differs, whether `fmt` is `d`, and `len`.
pub fn refuses_reading(
    malformed: bool,
    differs: bool,
    deflated: bool,
    len: u32,
) -> Result<(), Refusal>
    ensures { refusal_in result ≡ refuses_reading malformed differs deflated len }
{
    let long = refusals::LONGEST_PAYLOAD < len as usize;
    if malformed {
        return Err(Refusal::LineMalformed);
    }
    if differs {
        return Err(Refusal::ChkDiffers);
    }
    if deflated {
        return Err(Refusal::FormatD);
    }
    if long {
        return Err(Refusal::PayloadTooLong);
    }
    Ok(())
}

// Whether a message can be a line: its fields are valid, `len` is in its range, and the line has at most 512 bytes.
fn is_good(valid: bool, len: u32, size: usize) -> bool
    ensures { result ≡ line_good valid len size }
{
    valid && len <= 2147483647 && size <= 512
}

// What refuses the writing of a line: whether its fields are valid, `len`, its bytes before the LF, and the room.
// The message is tested by the reader's rules, then the room.
pub fn refuses_writing(valid: bool, len: u32, size: usize, room: usize) -> Result<(), Refusal>
    ensures { refusal_in result ≡ refuses_writing (line_good valid len size) len (size + 1) room }
{
    let good = is_good(valid, len, size);
    refuses_reading(!good, false, false, len)?;
    if room <= size {
        return Err(Refusal::BufferTooShort);
    }
    Ok(())
}
