// Texts at the front of a lent buffer, each as a whole or not at all.
ghost use Rattle.std.specs.Prelude.{◌≡◌, ◌++◌, ◌≤◌};
ghost use Rattle.octets.specs.Words.{every, between};
ghost use Rattle.octets.specs.Bytes.{fits, placed};
ghost use Rattle.text.specs.Hex.{hex_digits};
ghost use Rattle.replies.specs.Replies.{error_token, token_good, errs, wrote};
ghost use Rattle.replies.specs.Texts.{part};

// The texts of all replies stand one behind the other, so that the check of a reply meets numbers, not a literal for each text. These are the places
// in them where a text, or what ends one, begins; a text goes up to a later place.

// `send `
pub(crate) const SEND: usize = 0;

// `ack `
pub(crate) const ACK: usize = 5;

// `bad `
pub(crate) const BAD: usize = 9;

// `error `, before a token
pub(crate) const ERROR_T: usize = 13;

// `error` and its LF
pub(crate) const ERROR: usize = 19;

// that LF, which also ends `send ID` and `error T`
pub(crate) const ERROR_LF: usize = 24;

// `bye` and its LF
pub(crate) const BYE: usize = 25;

// `eh?`, its LF and the prompt
pub(crate) const EH: usize = 29;

// that LF and the prompt, which also end `ack ID` and `bad ID`
pub(crate) const EH_LF: usize = 32;

// the prompt
pub(crate) const PROMPT: usize = 33;

// `This is DAPPS.`, its LF and the prompt
pub(crate) const HELP: usize = 42;

pub(crate) const END: usize = 66;

// The texts from one place up to another, at a place of the buffer; whether they fit.
fn copy(from: usize, to: usize, out: &mut [u8], at: usize) -> bool
    requires { (from ≤ to) × (to ≤ 66) }
    ensures { (result ≡ fits (part from to) at out.old) × (out.new ≡ placed (part from to) at out.old) }
{
    let texts = *b"send ack bad error error\nbye\neh?\nDAPPSv1>\nThis is DAPPS.\nDAPPSv1>\n";
    octets::copy_at(&texts[from..to], out, at)
}

// The same, alone; how many bytes, none where they do not fit.
pub(crate) fn put(from: usize, to: usize, out: &mut [u8]) -> usize
    requires { (from ≤ to) × (to ≤ 66) }
    ensures { (result ≡ wrote (part from to) out.old) × (out.new ≡ placed (part from to) 0 out.old) }
{
    if copy(from, to, out, 0) {
        return to - from;
    }
    0
}

// The texts from `head` up to `head_end`, an id, and those from `tail` up to `tail_end`.
pub(crate) fn put_id(
    head: usize,
    head_end: usize,
    id: u32,
    tail: usize,
    tail_end: usize,
    out: &mut [u8],
) -> usize
    requires { (head ≤ head_end) × (head_end ≤ 66) × (tail ≤ tail_end) × (tail_end ≤ 66) }
    ensures { (result ≡ wrote (part head head_end ++ (hex_digits 7 id ++ part tail tail_end)) out.old) × (out.new ≡ placed (part head head_end ++ (hex_digits 7 id ++ part tail tail_end)) 0 out.old) }
{
    let h = head_end - head;
    let n = h + 7 + (tail_end - tail);
    if out.len() < n {
        return 0;
    }
    copy(head, head_end, out, 0);
    text::write_id(id, out, h);
    copy(tail, tail_end, out, h + 7);
    n
}

// `error T` for a token that is said again, else `error`.
pub(crate) fn put_error(t: &[u8], out: &mut [u8]) -> usize
    ensures { (result ≡ wrote (errs t.now) out.old) × (out.new ≡ placed (errs t.now) 0 out.old) }
{
    if !is_token(t) {
        return put(ERROR, BYE, out);
    }
    let n = t.len();
    if out.len() < n + 7 {
        return 0;
    }
    copy(ERROR_T, ERROR, out, 0);
    octets::copy_at(t, out, 6);
    copy(ERROR_LF, BYE, out, n + 6);
    n + 7
}

// The token after `ihave `.
pub(crate) fn token(s: &[u8]) -> &[u8]
    ensures { result.now ≡ error_token s.now }
{
    if s.len() < 6 {
        return &s[..0];
    }
    tokens::before_byte(&s[6..], b' ')
}

// Whether a token is said again: 1 to 7 bytes, all 0x21 to 0x7E.
#[tactic(auto, unfolding(crate::specs::Replies::token_good))]
fn is_token(t: &[u8]) -> bool
    ensures { result ≡ token_good t.now }
{
    (1..=7).contains(&t.len()) && has_token_bytes(t)
}

fn has_token_bytes(t: &[u8]) -> bool
    ensures { result ≡ every (between 0x21 0x7E) t.now }
{
    t.iter().all(|x| matches!(*x, 0x21..=0x7E))
}
