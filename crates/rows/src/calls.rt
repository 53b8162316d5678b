// The row after a message came or went.
ghost use Rattle.std.specs.Prelude.{◌≡◌, true, ◌<◌, length};
ghost use Rattle.rows.specs.Answer.{offered_says, taken_says};
ghost use Rattle.rows.specs.Stream.{accept, force_from};
ghost use Rattle.rows.specs.Row.{stream_of, keeps_row, held_in, packed};

use crate::{Given, Offered, Row, Taken};
use places::Held;

// The message is put in its place, for which there is room.
pub(crate) fn accept(r: Row, m: Held, clock: u32) -> Offered
    requires { (keeps_row r ≡ true) × (length (held_in r) < 16) }
    ensures { offered_says result ≡ packed (accept (stream_of r) m clock) }
{
    let p = places::place(r.held, r.count, m.number);
    let more = places::with_at(r.held, p, m);
    let before = places::gap_open(r.held, r.count, r.expected);
    let after = places::gap_open(more, r.count + 1, r.expected);
    let start = row_numbers::start_after(before, after, r.gap_start, clock);
    Offered {
        answer: Ok(()),
        row: Row {
            expected: r.expected,
            clock,
            gap_start: start,
            count: r.count + 1,
            held: more,
        },
    }
}

// The lowest held is given.
pub(crate) fn give(r: Row, clock: u32) -> Taken
    requires { (keeps_row r ≡ true) × (0 < r.count) }
    ensures { taken_says result ≡ packed (force_from (stream_of r) clock (held_in r)) }
{
    let lowest = r.held[0];
    let rest = places::without_first(r.held);
    let left = r.count - 1;
    let next = row_numbers::next_expected(lowest.number);
    let gap = places::gap_open(rest, left, next);
    let start = row_numbers::start_after(false, gap, 0, clock);
    Taken {
        answer: Ok(Some(Given {
            number: lowest.number,
            slip: lowest.slip,
        })),
        row: Row {
            expected: next,
            clock,
            gap_start: start,
            count: left,
            held: rest,
        },
    }
}
