// The parts of a record. Each is read from the front of the part that begins where the last one ended, and answers its value with the bytes used.
ghost use Rattle.std.specs.Prelude.{◌≡◌, ◌≤◌, option_map};
ghost use Rattle.octets.specs.Field.{many_parse};
ghost use Rattle.octets.specs.Reading.{read_as};
ghost use Rattle.rows.specs.Row.{places};
ghost use Rattle.records.specs.Record.{text, key, message, row};

use keys::Key;
use places::Held;
use rows::Row;

// ---- originator and stream id

// As many bytes as the length before them says.
fn read_text(d: &[u8]) -> Option<(&[u8], usize)>
    ensures { option_map (λ x. (x.0.now, x.1)) result ≡ read_as (λ l. l) (text.parse d.now) }
{
    let (n, _) = octets::read::<u8>(d)?;
    let end = 1 + usize::from(n);
    let text = d.get(1..end)?;
    Some((text, end))
}

pub(crate) fn read_key(d: &[u8]) -> Option<(Key, usize)>
    ensures { result ≡ read_as (λ k. k) (key.parse d.now) }
{
    let (originator, n) = read_text(d)?;
    let (stream_id, m) = read_text(&d[n..])?;
    let key = keys::name(originator, stream_id).ok()?;
    Some((key, n + m))
}

// ---- the row

fn read_message(d: &[u8]) -> Option<(Held, usize)>
    ensures { result ≡ read_as (λ m. m) (message.parse d.now) }
{
    let (number, a) = octets::read::<u32>(d)?;
    let (timeout, b) = octets::read::<u32>(&d[a..])?;
    let (slip, c) = octets::read::<u32>(&d[a + b..])?;
    let m = Held {
        number,
        timeout,
        slip,
    };
    Some((m, a + b + c))
}

// k messages, in the first of sixteen places.
fn read_messages(d: &[u8], k: usize) -> Option<([Held; 16], usize)>
    requires { k ≤ 16 }
    ensures { result ≡ read_as places (many_parse message k d.now) }
{
    let mut held = Row::none().held;
    let mut at = 0;
    for i in 0..k {
        let (m, n) = read_message(&d[at..])?;
        held[i] = m;
        at += n;
    }
    Some((held, at))
}

// Expected number, clock, gap start and held count, then the messages; the row must keep its rules.
pub(crate) fn read_row(d: &[u8]) -> Option<(Row, usize)>
    ensures { result ≡ read_as (λ r. r) (row.parse d.now) }
{
    let (expected, a) = octets::read::<u64>(d)?;
    let (clock, b) = octets::read::<u32>(&d[a..])?;
    let (gap_start, c) = octets::read::<u32>(&d[a + b..])?;
    let (n, e) = octets::read::<u8>(&d[a + b + c..])?;
    let count = usize::from(n);
    if count > 16 {
        return None;
    }
    let head = a + b + c + e;
    let (held, used) = read_messages(&d[head..], count)?;
    let row = Row {
        expected,
        clock,
        gap_start,
        count,
        held,
    };
    if !row.keeps_rules() {
        return None;
    }
    Some((row, head + used))
}
