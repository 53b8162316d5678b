// Document 01, "Streams": what stands for a key, and the refusals that go before a row's own, in the order of the paper's table.
#![tactic(auto)]

ghost use Rattle.std.specs.Prelude.{◌≡◌, Some};
ghost use Rattle.lookups.specs.Lookup.{standing_of, standing_by, known_target, offer_target, free_in, passed, ruled_by, number_says, target_says};

use refusals::Refusal;
use slot_rules::Ruled;

// The row that a take, a force or a close is about, by what a pass over the slots found for the key, and by what refuses the names. A place
// of 32 or more is none of the table's.
pub fn known(ruled: Option<Ruled>, refused: Option<Refusal>) -> Result<usize, Refusal>
    ensures { target_says result ≡ known_target (standing_of ruled refused) }
{
    passed(ruled, refused)?
        .found
        .filter(|i| *i < 32)
        .ok_or(Refusal::NoSuchStream)
}

// The row that an offer is about: an unknown key expects 1 and takes the lowest free row. Here too a place of 32 or more is none.
pub fn known_or_free(
    ruled: Option<Ruled>,
    refused: Option<Refusal>,
    number: u32,
) -> Result<usize, Refusal>
    ensures { target_says result ≡ offer_target number (free_in ruled) (standing_of ruled refused) }
{
    let r = passed(ruled, refused)?;
    if let Some(i) = r.found.filter(|i| *i < 32) {
        return Ok(i);
    }
    if number < 1 {
        return Err(Refusal::Stale);
    }
    r.free.filter(|i| *i < 32).ok_or(Refusal::NoFreeRow)
}

// The same by numbers, for a caller that has them: 0 for no refusal, a place of 32 or more for none. The number that refuses the names may be any.
pub fn known_by_number(good: bool, refusal: u8, found: usize) -> Result<usize, u8>
    ensures { number_says result ≡ known_target (standing_by good refusal found) }
{
    if good && refusal > 0 {
        return Err(refusal);
    }
    match known(by_places(good, found, 32), None) {
        Ok(i) => Ok(i),
        Err(why) => Err(why.number()),
    }
}

pub fn known_or_free_by_number(
    good: bool,
    refusal: u8,
    found: usize,
    number: u32,
    free: usize,
) -> Result<usize, u8>
    ensures { number_says result ≡ offer_target number (Some free) (standing_by good refusal found) }
{
    if good && refusal > 0 {
        return Err(refusal);
    }
    match known_or_free(by_places(good, found, free), None, number) {
        Ok(i) => Ok(i),
        Err(why) => Err(why.number()),
    }
}

// What a pass would have found in slots that keep their rules.
fn by_places(good: bool, found: usize, free: usize) -> Option<Ruled>
    ensures { result ≡ ruled_by good found free }
{
    if !good {
        return None;
    }
    Some(Ruled {
        found: Some(found),
        free: Some(free),
        rows: 0,
    })
}

// What was found, after the tests that every call makes first: 40, then what refuses the names.
fn passed(ruled: Option<Ruled>, refused: Option<Refusal>) -> Result<Ruled, Refusal>
    ensures { result ≡ passed ruled refused }
{
    let r = ruled.ok_or(Refusal::StateBroken)?;
    match refused {
        Some(why) => Err(why),
        None => Ok(r),
    }
}
