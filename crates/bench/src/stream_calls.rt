// The commands on the stream table: `offer`, `take`, `force`, `close`, `save` and `load`.
use crate::arguments::LONGEST_NAME;
use crate::buffers::{self, ROOM};
use crate::command::Command;
use crate::say;
use node::{Refusal, Table, TableServed, TableTaken};
use std::io;

pub(crate) fn obey(out: &impl Print, command: Command, table: &mut Table) -> io::Result<()> {
    let mut originator = [0u8; LONGEST_NAME];
    let mut id = [0u8; LONGEST_NAME];
    match command {
        Command::Offer(stream, m) => {
            let a = stream.originator.decoded(&mut originator);
            let b = stream.id.decoded(&mut id);
            let served = table.offer(a, b, m.number, m.timeout, m.slip, m.time);
            say_served(out, "accepted", table, served)
        }
        Command::Take(stream, time) => {
            let a = stream.originator.decoded(&mut originator);
            let b = stream.id.decoded(&mut id);
            say_taken(out, table, table.take(a, b, time))
        }
        Command::Force(stream, time) => {
            let a = stream.originator.decoded(&mut originator);
            let b = stream.id.decoded(&mut id);
            say_taken(out, table, table.force(a, b, time))
        }
        Command::Close(stream) => {
            let a = stream.originator.decoded(&mut originator);
            let b = stream.id.decoded(&mut id);
            say_served(out, "closed", table, table.close(a, b))
        }
        Command::Save(len) => save(out, table, len),
        Command::Load(image) => {
            let mut room = [0u8; ROOM];
            let loaded = node::load(*table, image.decoded(&mut room));
            *table = loaded.table;
            say_done(out, "loaded", loaded.answer)
        }
        _ => Ok(()),
    }
}

// The word of a call that was made, or its refusal.
fn say_done(out: &impl Print, word: &str, answer: Result<(), Refusal>) -> io::Result<()> {
    match answer {
        Ok(()) => print!(out; "{word}"),
        Err(refusal) => say::refused(out, refusal),
    }
}

fn say_served(
    out: &impl Print,
    word: &str,
    table: &mut Table,
    served: TableServed,
) -> io::Result<()> {
    *table = served.table;
    say_done(out, word, served.answer)
}

fn say_taken(out: &impl Print, table: &mut Table, taken: TableTaken) -> io::Result<()> {
    *table = taken.table;
    match taken.answer {
        Ok(Some(given)) => print!(out; "given {} {}", given.number, given.slip),
        Ok(None) => print!(out; "nothing"),
        Err(refusal) => say::refused(out, refusal),
    }
}

// Into `len` lent bytes.
fn save(out: &impl Print, table: &Table, len: usize) -> io::Result<()> {
    let mut room = [0u8; ROOM];
    match node::save(*table, buffers::first(&mut room, len)) {
        Ok(n) => say::front(out, "image ", &room, n),
        Err(refusal) => say::refused(out, refusal),
    }
}
