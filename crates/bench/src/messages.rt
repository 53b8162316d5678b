// The commands that keep nothing: hashes and ids, and lines and datagrams, read, or read and written again.
use crate::buffers::{self, ROOM};
use crate::command::Command;
use crate::{fields, say};
use node::{Hash, Refusal, Sha1};
use std::io;

pub(crate) fn obey(out: &impl Print, command: Command) -> io::Result<()> {
    let mut room = [0u8; ROOM];
    match command {
        Command::Sha1(bytes) => sha1(out, Sha1::new().feed_all(bytes.decoded(&mut room)).finish()),
        Command::Crc(bytes) => print!(out; "{:04x}", node::crc(bytes.decoded(&mut room))),
        Command::Utf8(bytes) if node::well_formed(bytes.decoded(&mut room)) => print!(out; "yes"),
        Command::Utf8(_) => print!(out; "no"),
        Command::Id(salt, payload) => match node::message_id(salt, payload.decoded(&mut room)) {
            Ok(id) => print!(out; "id {id:07x}"),
            Err(refusal) => say::refused(out, refusal),
        },
        Command::Line(line) => match node::read_line(line.decoded(&mut room)) {
            Ok(line) => {
                print!(out; "ok")?;
                fields::say_line(out, &line)
            }
            Err(refusal) => say::refused(out, refusal),
        },
        Command::Datagram(bytes) => match node::read_datagram(bytes.decoded(&mut room)) {
            Ok(read) => fields::say_datagram(out, &read),
            Err(refusal) => say::refused(out, refusal),
        },
        Command::Reline(line, len) => reline(out, line.decoded(&mut room), len),
        Command::Redatagram(bytes, len) => redatagram(out, bytes.decoded(&mut room), len),
        _ => Ok(()),
    }
}

fn sha1(out: &impl Print, h: Hash) -> io::Result<()> {
    let Hash { a, b, c, d, e } = h;
    print!(out; "{a:08x}{b:08x}{c:08x}{d:08x}{e:08x}")
}

// A line, read and written again into `len` lent bytes.
fn reline(out: &impl Print, line: &[u8], len: usize) -> io::Result<()> {
    let mut room = [0u8; ROOM];
    match node::read_line(line) {
        Ok(line) => {
            let written = node::write_line(line, buffers::first(&mut room, len));
            say_again(out, written, &room)
        }
        Err(refusal) => say::refused(out, refusal),
    }
}

// A datagram, read and written again into `len` lent bytes.
fn redatagram(out: &impl Print, bytes: &[u8], len: usize) -> io::Result<()> {
    let mut room = [0u8; ROOM];
    match node::read_datagram(bytes) {
        Ok(read) => {
            let payload = node::payload(bytes, read.payload_at, read.payload_len);
            let lent = buffers::first(&mut room, len);
            let written = node::write_datagram(read.message, payload, lent);
            say_again(out, written, &room)
        }
        Err(refusal) => say::refused(out, refusal),
    }
}

// What was written stands at the front of `room`.
fn say_again(out: &impl Print, written: Result<usize, Refusal>, room: &[u8]) -> io::Result<()> {
    match written {
        Ok(len) => say::front(out, "rewritten ", room, len),
        Err(refusal) => print!(out; "unwritten {}", refusal.number()),
    }
}
