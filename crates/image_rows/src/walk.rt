// A row of an image: a record where its mark stands, else free.
ghost use Rattle.std.specs.Prelude.{◌≡◌};
ghost use Rattle.octets.specs.Reading.{read_as};
ghost use Rattle.image_rows.specs.Rows.{slot_from};

use slots::Slot;

// Row i, with the bytes used.
pub(crate) fn read_slot(d: &[u8], i: u8) -> Option<(Slot, usize)>
    ensures { result ≡ read_as (λ x. x) (slot_from i d.now) }
{
    if !image_marks::is_row(d, i) {
        return Some((Slot::free(), 0));
    }
    let ((key, row), used) = records::read(&d[3..])?;
    let slot = Slot {
        is_open: true,
        key,
        row,
    };
    Some((slot, 3 + used))
}
