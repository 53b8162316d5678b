// Document 01, "The saved table": a table is saved to bytes that the host lends, and loaded from them.
#![tactic(auto)]

ghost use Rattle.std.specs.Prelude.{◌≡◌};
ghost use Rattle.image.specs.Answer.{saved_says, loaded_says};
ghost use Rattle.image.specs.Image.{save_of, load_of};

mod put;
mod walk;

use refusals::Refusal;
use streams::Table;

// The table is the image's, or in a refusal the one that came.
#[derive(Clone, Copy)]
pub struct Loaded {
    pub answer: Result<(), Refusal>,
    pub table: Table,
}

// Saves a table at the front of a lent buffer, and says how many bytes it wrote. The image is measured first, so that a refusal changes no byte.
pub fn save(t: Table, out: &mut [u8]) -> Result<usize, Refusal>
    ensures { saved_says result out.new ≡ save_of t out.old }
{
    let rows = t.open_rows()?;
    let size = put::records_size(&t);
    if !image_marks::has_room(size, out.len()) {
        return Err(Refusal::BufferTooShort);
    }
    put::put_records(&t, out);
    image_marks::put_end(rows as u8, out, size);
    Ok(size + 3)
}

// Loads an image: every row of the table is replaced by the image's.
pub fn load(t: Table, image: &[u8]) -> Loaded
    ensures { loaded_says result ≡ load_of t image.now }
{
    if let Err(why) = t.open_rows() {
        return walk::refused(why, t);
    }
    let Some(r) = image_rows::read_rows(image) else {
        return walk::refused(Refusal::NoSavedImage, t);
    };
    if !image_marks::is_end(&image[r.used..], r.rows as u8) {
        return walk::refused(Refusal::NoSavedImage, t);
    }
    Loaded {
        answer: Ok(()),
        table: r.table,
    }
}
