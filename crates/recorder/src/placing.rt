// The parts of a record, each written at its place of a buffer that has room for it. Buffer and place stay two parameters: the writers of
// bytes take them apart, and the place differs at each call.
ghost use Rattle.std.specs.Prelude.{◌≡◌, ◌+◌, ◌≤◌, length};
ghost use Rattle.octets.specs.Bytes.{placed};
ghost use Rattle.octets.specs.Field.{many_print};
ghost use Rattle.rows.specs.Row.{held_in};
ghost use Rattle.records.specs.Record.{text, key, message, row};

use keys::Key;
use places::Held;
use rows::Row;

// The messages that a row holds, of its sixteen places.
fn messages_of(r: &Row) -> &[Held]
    ensures { result.now ≡ held_in r.now }
{
    let held = r.held.as_slice();
    &held[..r.count.min(held.len())]
}

pub(crate) fn key_size(k: Key) -> usize
    ensures { (result ≡ length (key.print k)) × (result ≤ 269) }
{
    let originator = lengths::part(&k.originator, k.originator_len);
    let stream_id = lengths::part(&k.stream_id, k.stream_id_len);
    2 + originator.len() + stream_id.len()
}

pub(crate) fn row_size(r: Row) -> usize
    ensures { (result ≡ length (row.print r)) × (result ≤ 209) }
{
    17 + 12 * messages_of(&r).len()
}

fn put_text(s: &[u8], out: &mut [u8], at: usize)
    requires { at + (1 + length s.now) ≤ length out.old }
    ensures { out.new ≡ placed (text.print s.now) at out.old }
{
    octets::put_number(s.len() as u64, 1, out, at);
    octets::copy_at(s, out, at + 1);
}

pub(crate) fn put_key(k: Key, out: &mut [u8], at: usize)
    requires { at + length (key.print k) ≤ length out.old }
    ensures { out.new ≡ placed (key.print k) at out.old }
{
    let originator = lengths::part(&k.originator, k.originator_len);
    let stream_id = lengths::part(&k.stream_id, k.stream_id_len);
    put_text(originator, out, at);
    put_text(stream_id, out, at + 1 + originator.len());
}

fn put_message(m: Held, out: &mut [u8], at: usize)
    requires { at + 12 ≤ length out.old }
    ensures { out.new ≡ placed (message.print m) at out.old }
{
    octets::put_number(u64::from(m.number), 4, out, at);
    octets::put_number(u64::from(m.timeout), 4, out, at + 4);
    octets::put_number(u64::from(m.slip), 4, out, at + 8);
}

fn put_messages(held: &[Held], out: &mut [u8], at: usize)
    requires { at + length (many_print message held.now) ≤ length out.old }
    ensures { out.new ≡ placed (many_print message held.now) at out.old }
{
    for (i, m) in held.iter().enumerate() {
        put_message(*m, out, at + 12 * i);
    }
}

pub(crate) fn put_row(r: Row, out: &mut [u8], at: usize)
    requires { at + length (row.print r) ≤ length out.old }
    ensures { out.new ≡ placed (row.print r) at out.old }
{
    let held = messages_of(&r);
    octets::put_number(r.expected, 8, out, at);
    octets::put_number(u64::from(r.clock), 4, out, at + 8);
    octets::put_number(u64::from(r.gap_start), 4, out, at + 12);
    octets::put_number(held.len() as u64, 1, out, at + 16);
    put_messages(held, out, at + 17);
}
