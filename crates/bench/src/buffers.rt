// The buffers that calls are lent parts of, and the commands on them: `lend`, `store`, `fill` and `peek`. They stand in two memories, of which a
// call is lent one part each: in `memory` the fragment store and the payload buffer, one behind the other, in `replies` the reply buffer.
use crate::command::{Buffer, Command};
use crate::say;
use std::io;

pub(crate) const STORE: usize = node::STORE;

pub(crate) const PAYLOAD: usize = node::LONGEST_PAYLOAD;

pub(crate) const MEMORY: usize = STORE + PAYLOAD;

pub(crate) const REPLY: usize = 64;

// The most bytes that a command lends for its answer.
pub(crate) const ROOM: usize = 16384;

// How many bytes of each buffer are lent.
#[derive(Clone, Copy)]
pub(crate) struct Lent {
    pub(crate) payload: usize,
    pub(crate) reply: usize,
    pub(crate) store: usize,
}

impl Lent {
    // All of each buffer.
    pub(crate) fn whole() -> Lent {
        Lent {
            payload: PAYLOAD,
            reply: REPLY,
            store: STORE,
        }
    }
}

// The first `len` bytes of a buffer, or all where there are fewer.
pub(crate) fn first(buffer: &mut [u8], len: usize) -> &mut [u8] {
    let n = len.min(buffer.len());
    &mut buffer[..n]
}

pub(crate) fn obey(
    out: &impl Print,
    command: Command,
    lent: &mut Lent,
    memory: &mut [u8; MEMORY],
    replies: &mut [u8; REPLY],
) -> io::Result<()> {
    match command {
        Command::Lend(payload, reply) => {
            lent.payload = payload;
            lent.reply = reply;
            print!(out; "lent")
        }
        Command::Store(store) => {
            lent.store = store;
            print!(out; "lent")
        }
        Command::Fill(byte) => {
            memory.fill(byte);
            replies.fill(byte);
            print!(out; "filled")
        }
        Command::Peek(Buffer::Payload, at, len) => peek(out, &memory[STORE..], at, len),
        Command::Peek(Buffer::Reply, at, len) => peek(out, replies, at, len),
        Command::Peek(Buffer::Store, at, len) => peek(out, &memory[..STORE], at, len),
        _ => Ok(()),
    }
}

// The `len` bytes of a buffer from the place `at` on, where it has so many.
fn peek(out: &impl Print, buffer: &[u8], at: usize, len: usize) -> io::Result<()> {
    let rest = buffer.get(at..).unwrap_or(&[]);
    match rest.get(..len) {
        Some(bytes) => say::bytes(out, "bytes ", bytes),
        None => print!(out; "bad command"),
    }
}
