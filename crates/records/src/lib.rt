// Document 01, "The saved table": one row's record, and how it is read. What a table's image is made of.
#![tactic(auto)]

ghost use Rattle.std.specs.Prelude.{◌≡◌};
ghost use Rattle.octets.specs.Reading.{read_as};
ghost use Rattle.records.specs.Record.{body};

mod parts;

use keys::Key;
use rows::Row;

// Reads a record from the front of a part, behind its mark and number: the key and the row, with the bytes used.
pub fn read(d: &[u8]) -> Option<((Key, Row), usize)>
    ensures { result ≡ read_as (λ x. x) (body.parse d.now) }
{
    let (key, n) = parts::read_key(d)?;
    let (row, m) = parts::read_row(&d[n..])?;
    Some(((key, row), n + m))
}
