// Document 01, "The saved table": what an image says of the 32 rows, in row order.
#![tactic(auto)]

ghost use Rattle.std.specs.Prelude.{◌≡◌};
ghost use Rattle.image_rows.specs.Rows.{slots_from};
ghost use Rattle.image_rows.specs.Steps.{rows_read};

mod walk;

use slots::Slot;
use streams::Table;

// The table of the rows that an image begins with, how many of them are open, and how many bytes they took.
#[derive(Clone, Copy)]
pub struct RowsRead {
    pub table: Table,
    pub rows: usize,
    pub used: usize,
}

// The 32 rows, with distinct keys; none where the bytes are no rows of a table that keeps the rules.
pub fn read_rows(d: &[u8]) -> Option<RowsRead>
    ensures { result ≡ rows_read (slots_from 32 0 d.now) }
{
    let mut slots = [Slot::free(); 32];
    let mut at = 0;
    for i in 0..32 {
        let (slot, used) = walk::read_slot(&d[at..], i as u8)?;
        slots[i] = slot;
        at += used;
    }
    let ruled = slot_rules::test(slots, keys::none())?;
    Some(RowsRead {
        table: Table { slots },
        rows: ruled.rows,
        used: at,
    })
}
