// `open` and `feed B`: the receiving session, one call a command. A call that is refused leaves the session.
use crate::buffers::ROOM;
use crate::command::Command;
use crate::{fields, say};
use node::{Event, Line, Session, Step};
use std::io;

pub(crate) fn obey(
    out: &impl Print,
    command: Command,
    session: &mut Option<Session>,
    payload: &mut [u8],
    reply: &mut [u8],
) -> io::Result<()> {
    match command {
        Command::Open => open(out, session, reply),
        Command::Feed(piece) => {
            let mut room = [0u8; ROOM];
            feed(out, session, piece.decoded(&mut room), payload, reply)
        }
        _ => Ok(()),
    }
}

fn open(out: &impl Print, session: &mut Option<Session>, reply: &mut [u8]) -> io::Result<()> {
    let opened = node::open_session(reply);
    if let Err(refusal) = opened.stepping {
        return say::refused(out, refusal);
    }
    *session = Some(opened.session);
    say::front(out, "reply ", reply, opened.written)
}

// Before any `open` there is no session to feed.
fn feed(
    out: &impl Print,
    session: &mut Option<Session>,
    piece: &[u8],
    payload: &mut [u8],
    reply: &mut [u8],
) -> io::Result<()> {
    let Some(before) = *session else {
        return print!(out; "bad command");
    };
    let step = node::feed(before, piece, payload, reply);
    *session = Some(step.session);
    if let Err(refusal) = step.stepping {
        return say::refused(out, refusal);
    }
    stepped(out, &step, reply)
}

// What a step used, what happened, and its reply.
fn stepped(out: &impl Print, step: &Step, reply: &[u8]) -> io::Result<()> {
    print!(out; "used {}", step.used)?;
    say_event(out, step.event, &step.line)?;
    say::front(out, " reply ", reply, step.written)
}

fn say_event(out: &impl Print, event: Event, offered: &Line) -> io::Result<()> {
    match event {
        Event::Nothing => print!(out; " nothing"),
        Event::Offer(_) => {
            print!(out; " offer")?;
            fields::say_line(out, offered)
        }
        Event::Message(terms) => {
            print!(out; " message id={:07x}", terms.id)?;
            say::salt(out, terms.salt)?;
            print!(out; " len={}", terms.len)
        }
        Event::End(ending) => {
            let number = ending.reason.map_or(0, |refusal| refusal.number());
            print!(out; " end {number}")
        }
    }
}
