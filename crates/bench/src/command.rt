// A script's line, parsed: which command it is, with its arguments.
use crate::arguments::{Bytes, Words};
use crate::buffers::{PAYLOAD, REPLY, ROOM, STORE};

// A longer line is one `bad command`.
pub(crate) const LONGEST_LINE: usize = 49999;

// The largest number of a fragment.
const LARGEST_FRAGMENT: usize = 65535;

// A stream, by the names of its key.
#[derive(Clone, Copy)]
pub(crate) struct Stream<'a> {
    pub(crate) originator: Bytes<'a>,
    pub(crate) id: Bytes<'a>,
}

// A message that is offered to a stream.
#[derive(Clone, Copy)]
pub(crate) struct Offer {
    pub(crate) number: u32,
    pub(crate) timeout: u32,
    pub(crate) slip: u32,
    pub(crate) time: u32,
}

// A group of fragments, by what its key is made of.
#[derive(Clone, Copy)]
pub(crate) struct Group<'a> {
    pub(crate) originator: Option<Bytes<'a>>,
    pub(crate) master: u32,
}

// Fragment `number` of `total`.
#[derive(Clone, Copy)]
pub(crate) struct Fragment<'a> {
    pub(crate) number: usize,
    pub(crate) total: usize,
    pub(crate) time: u32,
    pub(crate) bytes: Bytes<'a>,
}

// A buffer that calls are lent, at which one may look.
#[derive(Clone, Copy)]
pub(crate) enum Buffer {
    Payload,
    Reply,
    Store,
}

// `Bad` is a line that is no command.
#[derive(Clone, Copy)]
pub(crate) enum Command<'a> {
    Bad,
    Sha1(Bytes<'a>),
    Crc(Bytes<'a>),
    Utf8(Bytes<'a>),
    Id(Option<i64>, Bytes<'a>),
    Line(Bytes<'a>),
    Reline(Bytes<'a>, usize),
    Datagram(Bytes<'a>),
    Redatagram(Bytes<'a>, usize),
    Lend(usize, usize),
    Store(usize),
    Fill(u8),
    Peek(Buffer, usize, usize),
    Open,
    Feed(Bytes<'a>),
    Offer(Stream<'a>, Offer),
    Take(Stream<'a>, u32),
    Force(Stream<'a>, u32),
    Close(Stream<'a>),
    Save(usize),
    Load(Bytes<'a>),
    Fragment(Group<'a>, Fragment<'a>),
    Collect(Group<'a>, usize),
    Sweep(u32),
}

impl<'a> Command<'a> {
    // The command that a line is; an empty line and a comment have no answer.
    pub(crate) fn parse(line: &'a [u8]) -> Option<Command<'a>> {
        match line {
            _ if line.len() > LONGEST_LINE => Some(Command::Bad),
            [] | [b'#', ..] => None,
            _ => Some(Command::read(line).unwrap_or(Command::Bad)),
        }
    }

    // The command of a line that has its words and no more.
    fn read(line: &'a [u8]) -> Option<Command<'a>> {
        let mut words = Words::new(line);
        let command = read_command(&mut words)?;
        if !words.ended() {
            return None;
        }
        Some(command)
    }
}

// The command that a line's first word names, with its arguments.
fn read_command<'a>(words: &mut Words<'a>) -> Option<Command<'a>> {
    let command = match words.next()? {
        b"sha1" => Command::Sha1(words.bytes()?),
        b"crc" => Command::Crc(words.bytes()?),
        b"utf8" => Command::Utf8(words.bytes()?),
        b"id" => Command::Id(words.salt()?, words.bytes()?),
        b"line" => Command::Line(words.bytes()?),
        b"reline" => Command::Reline(words.bytes()?, words.size(ROOM)?),
        b"datagram" => Command::Datagram(words.bytes()?),
        b"redatagram" => Command::Redatagram(words.bytes()?, words.size(ROOM)?),
        b"lend" => Command::Lend(words.size(PAYLOAD)?, words.size(REPLY)?),
        b"store" => Command::Store(words.size(STORE)?),
        b"fill" => Command::Fill(u8::try_from(words.number(255)?).ok()?),
        b"peek" => read_peek(words)?,
        b"open" => Command::Open,
        b"feed" => Command::Feed(words.bytes()?),
        b"offer" => Command::Offer(read_stream(words)?, read_offer(words)?),
        b"take" => Command::Take(read_stream(words)?, words.number(u32::MAX)?),
        b"force" => Command::Force(read_stream(words)?, words.number(u32::MAX)?),
        b"close" => Command::Close(read_stream(words)?),
        b"save" => Command::Save(words.size(ROOM)?),
        b"load" => Command::Load(words.bytes()?),
        b"fragment" => read_fragment(words)?,
        b"collect" => Command::Collect(read_group(words)?, words.size(ROOM)?),
        b"sweep" => Command::Sweep(words.number(u32::MAX)?),
        _ => return None,
    };
    Some(command)
}

fn read_peek<'a>(words: &mut Words<'a>) -> Option<Command<'a>> {
    let (buffer, size) = match words.next()? {
        b"payload" => (Buffer::Payload, PAYLOAD),
        b"reply" => (Buffer::Reply, REPLY),
        b"store" => (Buffer::Store, STORE),
        _ => return None,
    };
    Some(Command::Peek(buffer, words.size(size)?, words.size(ROOM)?))
}

fn read_stream<'a>(words: &mut Words<'a>) -> Option<Stream<'a>> {
    Some(Stream {
        originator: words.name()?,
        id: words.name()?,
    })
}

fn read_offer(words: &mut Words) -> Option<Offer> {
    Some(Offer {
        number: words.number(u32::MAX)?,
        timeout: words.number(u32::MAX)?,
        slip: words.number(u32::MAX)?,
        time: words.number(u32::MAX)?,
    })
}

fn read_group<'a>(words: &mut Words<'a>) -> Option<Group<'a>> {
    Some(Group {
        originator: words.name_or_absent()?,
        master: words.master()?,
    })
}

fn read_fragment<'a>(words: &mut Words<'a>) -> Option<Command<'a>> {
    let group = read_group(words)?;
    let fragment = Fragment {
        number: words.size(LARGEST_FRAGMENT)?,
        total: words.size(LARGEST_FRAGMENT)?,
        time: words.number(u32::MAX)?,
        bytes: words.bytes()?,
    };
    Some(Command::Fragment(group, fragment))
}
