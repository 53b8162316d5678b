// Document 01, "Streams": what a row's rules and calls work out from numbers alone, whatever these came from.
#![tactic(auto)]

ghost use Rattle.std.specs.Prelude.{◌≡◌, ◌+◌, max};
ghost use Rattle.refusals.specs.Refusals.{refusal_in};
ghost use Rattle.row_numbers.specs.Numbers.{above_by, keeps_numbers, refuses_offer, start_after, due_by};

use refusals::Refusal;

// Whether a row's numbers are as its rules say (40), by how many messages it holds and whether the gap before them is open. The messages
// themselves must ascend from `expected`: the places test that.
pub fn keeps_numbers(count: usize, expected: u64, clock: u32, start: u32, gap: bool) -> bool
    ensures { result ≡ keeps_numbers count expected clock start gap }
{
    if count > 16 {
        return false;
    }
    if expected < 1 {
        return false;
    }
    if expected > 4294967296 {
        return false;
    }
    if above(count, gap) > 15 {
        return false;
    }
    start <= clock && (gap || start == 0)
}

// What refuses an offer, if anything does: by whether the row keeps its rules, whether it holds the number, how many it holds and whether
// the gap is open.
pub fn refuses_offer(
    keeps: bool,
    number: u32,
    expected: u64,
    held: bool,
    count: usize,
    gap: bool,
) -> Result<(), Refusal>
    ensures { refusal_in result ≡ refuses_offer keeps number expected held (above_by gap count) }
{
    if !keeps {
        return Err(Refusal::StateBroken);
    }
    if u64::from(number) < expected {
        return Err(Refusal::Stale);
    }
    if held {
        return Err(Refusal::AlreadyHeld);
    }
    if u64::from(number) <= expected {
        return Ok(());
    }
    if above(count, gap) >= 15 {
        return Err(Refusal::RowFull);
    }
    Ok(())
}

// How many of `count` ascending messages stand above the expected number: all while the gap is open, else all but the first.
fn above(count: usize, gap: bool) -> usize
    ensures { result ≡ above_by gap count }
{
    if gap { count } else { count.saturating_sub(1) }
}

// The larger of a row's clock and a time.
pub fn later(clock: u32, time: u32) -> u32
    ensures { result ≡ max clock time }
{
    clock.max(time)
}

// The gap start after a call, by whether a gap that was open goes on (no gap goes on through a give) and whether one is open after it.
pub fn start_after(before: bool, after: bool, kept: u32, clock: u32) -> u32
    ensures { result ≡ start_after before after kept clock }
{
    if !after {
        return 0;
    }
    if before {
        return kept;
    }
    clock
}

// Whether something is held, and the lowest, by its number and timeout, may be given at the clock.
pub fn is_due(
    count: usize,
    number: u32,
    timeout: u32,
    expected: u64,
    start: u32,
    clock: u32,
) -> bool
    ensures { result ≡ due_by count number timeout expected start clock }
{
    if count == 0 {
        return false;
    }
    if u64::from(number) == expected {
        return true;
    }
    if timeout == 0 {
        return false;
    }
    timeout <= clock.saturating_sub(start)
}

// The number that is expected when one was given.
pub fn next_expected(number: u32) -> u64
    ensures { result ≡ number + 1 }
{
    u64::from(number) + 1
}
