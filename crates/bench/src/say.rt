// Answers, said to standard output piece by piece.
use node::Refusal;
use std::io;

// The digits of `%XX`, in capitals.
const DIGITS: [u8; 16] = *b"0123456789ABCDEF";

// `refused` and the number of a refusal.
pub(crate) fn refused(out: &impl Print, refusal: Refusal) -> io::Result<()> {
    print!(out; "refused {}", refusal.number())
}

// A salt, where there is one.
pub(crate) fn salt(out: &impl Print, salt: Option<i64>) -> io::Result<()> {
    match salt {
        Some(salt) => print!(out; " s={salt}"),
        None => Ok(()),
    }
}

// Bytes behind a word, as a script writes them: `-` for none; a byte `-` or `~` alone would be taken for none or absent, so it is escaped.
pub(crate) fn bytes(out: &impl Print, word: &str, bytes: &[u8]) -> io::Result<()> {
    print!(out; "{word}")?;
    match bytes {
        [] => print!(out; "-"),
        [byte @ (b'-' | b'~')] => escaped(out, *byte),
        _ => spelled(out, bytes),
    }
}

// The first `n` of some bytes behind a word.
pub(crate) fn front(out: &impl Print, word: &str, from: &[u8], n: usize) -> io::Result<()> {
    bytes(out, word, &from[..n.min(from.len())])
}

// Bytes that stand for themselves as they are, any other as `%XX`.
fn spelled(out: &impl Print, bytes: &[u8]) -> io::Result<()> {
    for run in bytes.split_inclusive(|b| !is_plain(*b)) {
        match run {
            [plain @ .., byte] if !is_plain(*byte) => {
                out.write_all(plain)?;
                escaped(out, *byte)?;
            }
            plain => out.write_all(plain)?,
        }
    }
    Ok(())
}

// A byte as `%XX`. Its two digits are looked up: an answer may have thousands of such bytes, and to format each costs ten times as much.
fn escaped(out: &impl Print, byte: u8) -> io::Result<()> {
    let high = DIGITS[usize::from(byte / 16)];
    let low = DIGITS[usize::from(byte % 16)];
    out.write_all(&[b'%', high, low])
}

// Whether a byte stands for itself: those from 0x21 to 0x7E do, but `%`.
pub(crate) fn is_plain(b: u8) -> bool {
    matches!(b, 0x21..=0x7E) && b != b'%'
}
