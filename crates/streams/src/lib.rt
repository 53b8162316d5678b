// Document 01, "Streams": the table of 32 rows by key. The table goes in by value and comes back in the answer; a refusal hands it back as
// it came.
#![tactic(auto)]

ghost use Rattle.std.specs.Prelude.{◌≡◌};
ghost use Rattle.rows.specs.Answer.{giving};
ghost use Rattle.keys.specs.Key.{named_of};
ghost use Rattle.lookups.specs.Lookup.{known_target, target_says};
ghost use Rattle.streams.specs.Answer.{served_says, taken_says, count_says, shown_says};
ghost use Rattle.streams.specs.Table.{empty};
ghost use Rattle.streams.specs.Calls.{look_up, offer, take, force, close, open_rows, row_at};
ghost use Rattle.streams.specs.Steps.{Within, Called, served};

use keys::Key;
use refusals::Refusal;
use rows::{Given, Row};
use slots::Slot;

#[derive(Clone, Copy)]
pub struct Table {
    pub slots: [Slot; 32],
}

// The table stands first, so that nothing lies between it and the answer's start: what is handed back is then copied once.
#[derive(Clone, Copy)]
pub struct Served {
    pub table: Table,
    pub answer: Result<(), Refusal>,
}

#[derive(Clone, Copy)]
pub struct Taken {
    pub table: Table,
    pub answer: Result<Option<Given>, Refusal>,
}

#[derive(Clone, Copy)]
pub struct Shown {
    pub key: Key,
    pub row: Row,
}

impl Table {
    // 32 free rows.
    pub fn new() -> Table
        ensures { result ≡ empty }
    {
        Table {
            slots: [Slot::free(); 32],
        }
    }

    // Offers a message to a stream; an unknown stream is opened.
    pub fn offer(
        mut self,
        originator: &[u8],
        stream_id: &[u8],
        number: u32,
        timeout: u32,
        slip: u32,
        time: u32,
    ) -> Served
        ensures { served_says result ≡ offer self originator.now stream_id.now (record { number = number; timeout = timeout; slip = slip }) time }
    {
        let answer = self.offer_row(originator, stream_id, number, timeout, slip, time);
        Served {
            table: self,
            answer,
        }
    }

    // Takes a stream's lowest held message if it is due.
    pub fn take(mut self, originator: &[u8], stream_id: &[u8], time: u32) -> Taken
        ensures { taken_says result ≡ take self originator.now stream_id.now time }
    {
        let answer = self.on_row(originator, stream_id, |row| row.take(time));
        Taken {
            table: self,
            answer,
        }
    }

    // Takes a stream's lowest held message, whatever the gap.
    pub fn force(mut self, originator: &[u8], stream_id: &[u8], time: u32) -> Taken
        ensures { taken_says result ≡ force self originator.now stream_id.now time }
    {
        let answer = self.on_row(originator, stream_id, |row| row.force(time));
        Taken {
            table: self,
            answer,
        }
    }

    // Frees a stream's row, where nothing is held.
    pub fn close(mut self, originator: &[u8], stream_id: &[u8]) -> Served
        ensures { served_says result ≡ close self originator.now stream_id.now }
    {
        let answer = self.free_row(originator, stream_id);
        Served {
            table: self,
            answer,
        }
    }

    // How many rows are open.
    pub fn open_rows(self) -> Result<usize, Refusal>
        ensures { count_says result ≡ open_rows self }
    {
        match slot_rules::test(self.slots, keys::none()) {
            Some(ruled) => Ok(ruled.rows),
            None => Err(Refusal::StateBroken),
        }
    }

    // Row `number`, 0 to 31, with its key.
    pub fn row_at(self, number: usize) -> Result<Shown, Refusal>
        ensures { shown_says result ≡ row_at self number }
    {
        let Some(_) = slot_rules::test(self.slots, keys::none()) else {
            return Err(Refusal::StateBroken);
        };
        match self.slots.get(number) {
            Some(x) if x.is_open => Ok(Shown {
                key: x.key,
                row: x.row,
            }),
            _ => Err(Refusal::NoSuchStream),
        }
    }

    // The place of a stream's row.
    fn find(&self, originator: &[u8], stream_id: &[u8]) -> Result<usize, Refusal>
        ensures at { target_says result ≡ known_target (look_up self.now (named_of originator.now stream_id.now)) }
        ensures within { Within result }
    {
        let named = keys::name(originator, stream_id);
        let ruled = slot_rules::test(self.slots, named.unwrap_or(keys::none()));
        lookups::known(ruled, named.err())
    }

    // The offer, made on a stream's row, which is a new one where the stream is unknown.
    fn offer_row(
        &mut self,
        originator: &[u8],
        stream_id: &[u8],
        number: u32,
        timeout: u32,
        slip: u32,
        time: u32,
    ) -> Result<(), Refusal>
        ensures { served self.new result ≡ offer self.old originator.now stream_id.now (record { number = number; timeout = timeout; slip = slip }) time }
    {
        let named = keys::name(originator, stream_id);
        let key = named.unwrap_or(keys::none());
        let ruled = slot_rules::test(self.slots, key);
        let i = lookups::known_or_free(ruled, named.err(), number)?;
        let x = &mut self.slots[i];
        *x = x.for_key(key);
        let offered = x.row.offer(number, timeout, slip, time);
        x.row = offered.row;
        offered.answer
    }

    // A row's call, made on a stream's row.
    fn on_row<F: Fn(Row) -> rows::Taken>(
        &mut self,
        originator: &[u8],
        stream_id: &[u8],
        call: F,
    ) -> Result<Option<Given>, Refusal>
        requires { F.IsAlwaysCallable call }
        ensures { Called self.old (F.post call) (look_up self.old (named_of originator.now stream_id.now)) (record { answer = giving result; after = self.new }) }
    {
        let i = self.find(originator, stream_id)?;
        let x = &mut self.slots[i];
        let taken = call(x.row);
        x.row = taken.row;
        taken.answer
    }

    // A stream's row becomes free, where nothing is held.
    fn free_row(&mut self, originator: &[u8], stream_id: &[u8]) -> Result<(), Refusal>
        ensures { served self.new result ≡ close self.old originator.now stream_id.now }
    {
        let i = self.find(originator, stream_id)?;
        let x = &mut self.slots[i];
        if x.row.count != 0 {
            return Err(Refusal::StillHolding);
        }
        *x = Slot::free();
        Ok(())
    }
}
