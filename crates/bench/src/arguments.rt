// The words of a line, and what a word stands for: a number up to a limit, bytes, a salt, a master id.
ghost use Rattle.std.specs.Prelude.{◌<◌, IfSome, length};

use crate::buffers::ROOM;
use crate::say::is_plain;

// The longest name that a command takes.
pub(crate) const LONGEST_NAME: usize = 512;

// The words of a line that are still to be read: what stands behind the last one's space, if there was one.
#[derive(Clone, Copy)]
pub(crate) struct Words<'a> {
    rest: Option<&'a [u8]>,
}

// Bytes as a script writes them, each spelled well; no word is no bytes.
#[derive(Clone, Copy)]
pub(crate) struct Bytes<'a> {
    word: &'a [u8],
}

impl<'a> Words<'a> {
    pub(crate) fn new(line: &'a [u8]) -> Words<'a> {
        Words { rest: Some(line) }
    }

    // The next word.
    pub(crate) fn next(&mut self) -> Option<&'a [u8]> {
        let rest = self.rest?;
        let n = rest.iter().take_while(|b| **b != b' ').count();
        self.rest = rest.get(n + 1..);
        Some(&rest[..n])
    }

    // Whether the line has no more words.
    pub(crate) fn ended(&self) -> bool {
        self.rest.is_none()
    }

    // A decimal without leading zero.
    pub(crate) fn number(&mut self, limit: u32) -> Option<u32> {
        let n = text::read_number(self.next()?, u64::from(limit))?;
        u32::try_from(n).ok()
    }

    // The same, as a length.
    pub(crate) fn size(&mut self, limit: usize) -> Option<usize> {
        let n = text::read_number(self.next()?, limit as u64)?;
        usize::try_from(n).ok()
    }

    // A salt, or `~` for none.
    pub(crate) fn salt(&mut self) -> Option<Option<i64>> {
        match self.next()? {
            [b'~'] => Some(None),
            word => Some(Some(text::read_signed(word)?)),
        }
    }

    // Bytes.
    pub(crate) fn bytes(&mut self) -> Option<Bytes<'a>> {
        Bytes::up_to(self.next()?, ROOM)
    }

    // The bytes of a name.
    pub(crate) fn name(&mut self) -> Option<Bytes<'a>> {
        Bytes::up_to(self.next()?, LONGEST_NAME)
    }

    // The bytes of a name, or `~` for absent.
    pub(crate) fn name_or_absent(&mut self) -> Option<Option<Bytes<'a>>> {
        match self.next()? {
            [b'~'] => Some(None),
            word => Some(Some(Bytes::up_to(word, LONGEST_NAME)?)),
        }
    }

    // A master id: bytes that are 7 of `0-9a-f`.
    pub(crate) fn master(&mut self) -> Option<u32> {
        let bytes = Bytes::up_to(self.next()?, 7)?;
        let mut room = [0u8; 7];
        text::read_id(bytes.decoded(&mut room))
    }
}

impl<'a> Bytes<'a> {
    // The bytes that a word stands for, where they are no more than `most`.
    fn up_to(word: &'a [u8], most: usize) -> Option<Bytes<'a>> {
        if let [b'-'] = word {
            return Some(Bytes { word: &[] });
        }
        let mut left = most;
        let mut rest = word;
        // At least one byte is spelled: a word of no characters is none.
        loop {
            let (_, behind) = spelled(rest)?;
            left = left.checked_sub(1)?;
            if behind.is_empty() {
                return Some(Bytes { word });
            }
            rest = behind;
        }
    }

    // The bytes, at the front of a room; as many of them as it has room for.
    pub(crate) fn decoded<'b>(self, room: &'b mut [u8]) -> &'b [u8] {
        let mut len: usize = 0;
        let mut rest = self.word;
        while let Some((byte, behind)) = spelled(rest) {
            if len == room.len() {
                break;
            }
            room[len] = byte;
            len += 1;
            rest = behind;
        }
        &room[..len]
    }
}

// The first byte that is spelled, and what stands behind it: a byte from 0x21 to 0x7E but `%` stands for itself, `%XX` for the byte XX.
fn spelled(word: &[u8]) -> Option<(u8, &[u8])>
    ensures { IfSome result (λ x. length x.1.now < length word.now) }
{
    match word {
        [b'%', high, low, behind @ ..] => Some((digit(*high)? * 16 + digit(*low)?, behind)),
        [byte, behind @ ..] if is_plain(*byte) => Some((*byte, behind)),
        _ => None,
    }
}

// What a digit of `0-9A-F` is worth.
fn digit(b: u8) -> Option<u8>
    ensures { IfSome result (λ d. d < 16) }
{
    match b {
        b'0'..=b'9' => Some(b - b'0'),
        b'A'..=b'F' => Some(b - b'A' + 10),
        _ => None,
    }
}
