// Document 01, "Streams": one row, its rules and its three calls.
// The row goes in by value and comes back in the answer; a refusal hands it back as it came.
#![tactic(auto)]

ghost use Rattle.std.specs.Prelude.{◌≡◌, true, ◌<◌};
ghost use Rattle.rows.specs.Answer.{offered_says, taken_says};
ghost use Rattle.rows.specs.Stream.{fresh};
ghost use Rattle.rows.specs.Row.{row_of, no_row, keeps_row, is_no_row, offer_of, take_of, force_of};
ghost use Rattle.rows.specs.Steps.{given_if};

mod calls;

use places::Held;
use refusals::Refusal;

// The held messages are the first `count` of the sixteen, in ascending number; the places past them are all zero. A host may hand in a row
// of any other kind too: it is refused with 40.
#[derive(Clone, Copy)]
pub struct Row {
    pub expected: u64,
    pub clock: u32,
    pub gap_start: u32,
    pub count: usize,
    pub held: [Held; 16],
}

// A message that was given: its number, and the slip under which the host keeps it.
#[derive(Clone, Copy)]
pub struct Given {
    pub number: u32,
    pub slip: u32,
}

#[derive(Clone, Copy)]
pub struct Offered {
    pub answer: Result<(), Refusal>,
    pub row: Row,
}

#[derive(Clone, Copy)]
pub struct Taken {
    pub answer: Result<Option<Given>, Refusal>,
    pub row: Row,
}

impl Row {
    // A new row: it expects 1, and its clock is 0.
    pub fn new() -> Row
        ensures { result ≡ row_of fresh }
    {
        Row {
            expected: 1,
            ..Row::none()
        }
    }

    // No stream's row: all zero.
    pub fn none() -> Row
        ensures { result ≡ no_row }
    {
        let blank = Held {
            number: 0,
            timeout: 0,
            slip: 0,
        };
        Row {
            expected: 0,
            clock: 0,
            gap_start: 0,
            count: 0,
            held: [blank; 16],
        }
    }

    // Whether all of the row is zero.
    #[tactic(auto, unfolding(crate::specs::Row::is_no_row))]
    pub fn is_none(self) -> bool
        ensures { result ≡ is_no_row self }
    {
        self.expected == 0
            && self.clock == 0
            && self.gap_start == 0
            && self.count == 0
            && places::blank_from(self.held, 0)
    }

    // Whether the row keeps its rules (40).
    pub fn keeps_rules(self) -> bool
        ensures { result ≡ keeps_row self }
    {
        if !places::blank_from(self.held, self.count) {
            return false;
        }
        if !places::ascends(self.held, self.count, self.expected) {
            return false;
        }
        let gap = places::gap_open(self.held, self.count, self.expected);
        row_numbers::keeps_numbers(self.count, self.expected, self.clock, self.gap_start, gap)
    }

    // Offers a message: its number, timeout and slip, at a time.
    pub fn offer(self, number: u32, timeout: u32, slip: u32, time: u32) -> Offered
        ensures { offered_says result ≡ offer_of self (record { number = number; timeout = timeout; slip = slip }) time }
    {
        let known = places::has(self.held, self.count, number);
        let gap = places::gap_open(self.held, self.count, self.expected);
        let answer = row_numbers::refuses_offer(
            self.keeps_rules(),
            number,
            self.expected,
            known,
            self.count,
            gap,
        );
        if answer.is_err() {
            return Offered { answer, row: self };
        }
        let m = Held {
            number,
            timeout,
            slip,
        };
        calls::accept(self, m, row_numbers::later(self.clock, time))
    }

    // Takes the lowest held message if it is due.
    pub fn take(self, time: u32) -> Taken
        ensures { taken_says result ≡ take_of self time }
    {
        let clock = row_numbers::later(self.clock, time);
        let lowest = self.held[0];
        let due = row_numbers::is_due(
            self.count,
            lowest.number,
            lowest.timeout,
            self.expected,
            self.gap_start,
            clock,
        );
        self.give_if(due, clock)
    }

    // Takes the lowest held message, whatever the gap.
    pub fn force(self, time: u32) -> Taken
        ensures { taken_says result ≡ force_of self time }
    {
        let clock = row_numbers::later(self.clock, time);
        self.give_if(self.count > 0, clock)
    }

    // Gives the lowest held message where it may be given; otherwise only the clock goes on.
    fn give_if(mut self, due: bool, clock: u32) -> Taken
        requires { due ≡ true → 0 < self.count }
        ensures { taken_says result ≡ given_if self due clock }
    {
        if !self.keeps_rules() {
            return Taken {
                answer: Err(Refusal::StateBroken),
                row: self,
            };
        }
        if due {
            return calls::give(self, clock);
        }
        self.clock = clock;
        Taken {
            answer: Ok(None),
            row: self,
        }
    }
}
