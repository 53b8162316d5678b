// Document 01, "The saved table": one row's record, measured and written.
#![tactic(auto)]

ghost use Rattle.std.specs.Prelude.{◌≡◌, length};
ghost use Rattle.octets.specs.Bytes.{fits, placed};
ghost use Rattle.records.specs.Record.{body};

mod placing;

use keys::Key;
use rows::Row;

// How many bytes the record of a key and a row has.
pub fn size(key: Key, row: Row) -> usize
    ensures { result ≡ length (body.print (key, row)) }
{
    placing::key_size(key) + placing::row_size(row)
}

// Writes the record at the place `at` of a lent buffer, if it fits. A record is never empty, so that a place past the buffer has no room for it.
pub fn write(key: Key, row: Row, out: &mut [u8], at: usize) -> bool
    ensures { (result ≡ fits (body.print (key, row)) at out.old) × (out.new ≡ placed (body.print (key, row)) at out.old) }
{
    let n = placing::key_size(key);
    if out.len().saturating_sub(at) < n + placing::row_size(row) {
        return false;
    }
    placing::put_key(key, out, at);
    placing::put_row(row, out, at + n);
    true
}
