// The script: standard input cut into lines, each answered as soon as it is read.
ghost use Rattle.std.specs.Prelude.{◌≤◌, IfOk};

use crate::buffers::{Lent, MEMORY, REPLY, STORE};
use crate::command::{Command, LONGEST_LINE};
use crate::{buffers, fragment_calls, messages, sessions, stream_calls};
use node::{Groups, Session, Table};
use std::io;
use std::io::Read;

// The room for a line: its longest and one byte more, by which a line that is too long is known.
pub(crate) const LINE: usize = LONGEST_LINE + 1;

// What is kept from one command to the next: the session, once there is one, the stream table, the groups, and how much of the buffers is lent.
#[derive(Clone, Copy)]
struct Kept {
    session: Option<Session>,
    table: Table,
    groups: Groups,
    lent: Lent,
}

// Answers a whole script.
// Nothing says that the input ends, and a proved loop has to; so it counts its turns, up to a number that no run comes to.
pub(crate) fn run(
    rt: &(impl Input + Print),
    line: &mut [u8; LINE],
    memory: &mut [u8; MEMORY],
    replies: &mut [u8; REPLY],
) -> io::Result<()> {
    let mut input = rt.reader();
    let mut kept = Kept {
        session: None,
        table: Table::new(),
        groups: Groups::new(),
        lent: Lent::whole(),
    };
    for _ in 0..u64::MAX {
        let got = read_line(&mut input, line)?;
        if let Some(command) = Command::parse(&line[..got.len]) {
            obey(rt, command, &mut kept, memory, replies)?;
            println!(rt; "")?;
        }
        if got.ended {
            break;
        }
    }
    Ok(())
}

// Makes the call that a command names, and says its answer. Each area is handed what it keeps, and makes the calls that are its own.
fn obey(
    out: &impl Print,
    command: Command,
    kept: &mut Kept,
    memory: &mut [u8; MEMORY],
    replies: &mut [u8; REPLY],
) -> io::Result<()> {
    let lent = kept.lent;
    match command {
        Command::Open | Command::Feed(_) => {
            let payload = buffers::first(&mut memory[STORE..], lent.payload);
            let reply = buffers::first(replies, lent.reply);
            sessions::obey(out, command, &mut kept.session, payload, reply)
        }
        Command::Fragment(_, _) | Command::Collect(_, _) | Command::Sweep(_) => {
            let store = buffers::first(&mut memory[..STORE], lent.store);
            fragment_calls::obey(out, command, &mut kept.groups, store)
        }
        Command::Lend(_, _) | Command::Store(_) | Command::Fill(_) | Command::Peek(_, _, _) => {
            buffers::obey(out, command, &mut kept.lent, memory, replies)
        }
        Command::Offer(_, _)
        | Command::Take(_, _)
        | Command::Force(_, _)
        | Command::Close(_)
        | Command::Save(_)
        | Command::Load(_) => stream_calls::obey(out, command, &mut kept.table),
        Command::Bad => print!(out; "bad command"),
        _ => messages::obey(out, command),
    }
}

// A line's length in its buffer, and whether the input ended with it.
#[derive(Clone, Copy)]
struct Got {
    len: usize,
    ended: bool,
}

// Reads a line up to its LF or the input's end: a byte at a time, so that none behind the line is taken before the line is answered.
// Past the room for a line no byte is kept.
fn read_line(input: &mut impl Read, line: &mut [u8; LINE]) -> io::Result<Got>
    ensures { IfOk result (λ got. got.len ≤ 50000) }
{
    let mut len: usize = 0;
    for read in input.by_ref().bytes() {
        let byte = read?;
        if byte == b'\n' {
            return Ok(Got { len, ended: false });
        }
        if len < LINE {
            line[len] = byte;
            len += 1;
        }
    }
    Ok(Got { len, ended: true })
}
