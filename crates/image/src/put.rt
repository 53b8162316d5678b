// The image's records, each written at its place of a buffer that has room for it.
// Buffer and place stay two parameters: the writers of bytes take them apart, and the place differs at each call.
ghost use Rattle.std.specs.Prelude.{◌≡◌, true, ◌+◌, ◌≤◌, length};
ghost use Rattle.octets.specs.Bytes.{placed};
ghost use Rattle.streams.specs.Table.{keeps_slot, keeps_table};
ghost use Rattle.image.specs.Image.{record_of, records_from};

use slots::Slot;
use streams::Table;

// How many bytes a row's record has with its mark and number; none where the row is free.
fn record_size(x: &Slot) -> usize
    requires { keeps_slot x.now ≡ true }
    ensures { (result ≡ length (record_of 0 x.now)) × (result ≤ 481) }
{
    if !x.is_open {
        return 0;
    }
    3 + recorder::size(x.key, x.row)
}

pub(crate) fn records_size(t: &Table) -> usize
    requires { keeps_table t.now ≡ true }
    ensures { (result ≡ length (records_from 0 t.now.slots)) × (result ≤ 15392) }
{
    // No sum of a chain: its closure would need what `record_size` requires of each slot, and the sum a bound.
    let mut sum = 0;
    for x in &t.slots {
        sum += record_size(x);
    }
    sum
}

// Row i's record, where the row is open.
fn put_record(x: &Slot, i: u8, out: &mut [u8], at: usize)
    requires { at + length (record_of i x.now) ≤ length out.old }
    ensures { out.new ≡ placed (record_of i x.now) at out.old }
{
    if !x.is_open {
        return;
    }
    let mark = [0x53, 0x54, i];
    octets::copy_at(&mark, out, at);
    recorder::write(x.key, x.row, out, at + 3);
}

// The records of all open rows, in row order, at the buffer's front.
pub(crate) fn put_records(t: &Table, out: &mut [u8])
    requires { (keeps_table t.now ≡ true) × (length (records_from 0 t.now.slots) ≤ length out.old) }
    ensures { out.new ≡ placed (records_from 0 t.now.slots) 0 out.old }
{
    let mut at = 0;
    for (i, x) in t.slots.iter().enumerate() {
        put_record(x, i as u8, out, at);
        at += record_size(x);
    }
}
