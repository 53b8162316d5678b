// Document 01, "The saved table": the marks by which an image's rows and its end are told.
#![tactic(auto)]

ghost use Rattle.std.specs.Prelude.{◌≡◌, ◌+◌, take};
ghost use Rattle.octets.specs.Words.{◌≤?◌};
ghost use Rattle.octets.specs.Bytes.{same, fits, placed};
ghost use Rattle.image_marks.specs.Marks.{row_mark, end_record};

// Whether the mark with the row number i stands at the front.
pub fn is_row(d: &[u8], i: u8) -> bool
    ensures { result ≡ same (take 3 d.now) (row_mark i) }
{
    d.starts_with(&[0x53, 0x54, i])
}

// Whether nothing but the end record with the row count stands there.
pub fn is_end(d: &[u8], rows: u8) -> bool
    ensures { result ≡ same d.now (end_record rows) }
{
    let end = [0x53, 0x45, rows];
    d == end.as_slice()
}

// The end record with the row count, written at the place `at` of a lent buffer, if it fits.
pub fn put_end(rows: u8, out: &mut [u8], at: usize) -> bool
    ensures { (result ≡ fits (end_record rows) at out.old) × (out.new ≡ placed (end_record rows) at out.old) }
{
    let last = [0x53, 0x45, rows];
    octets::copy_at(&last, out, at)
}

// How many bytes the end record has.
const END: usize = 3;

// Whether a buffer has room for records of so many bytes and for the end behind them.
pub fn has_room(records: usize, room: usize) -> bool
    ensures { result ≡ (records + 3 ≤? room) }
{
    room.checked_sub(END).is_some_and(|left| records <= left)
}
