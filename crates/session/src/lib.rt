// Document 01, "The receiving session": bytes from the peer in, a reply and what happened out.
#![tactic(auto)]

ghost use Rattle.std.specs.Prelude.{◌≡◌, length};
ghost use Rattle.octets.specs.Bytes.{front};
ghost use Rattle.session.specs.Answer.{says, opened_says};
ghost use Rattle.session.specs.Calls.{step_of, open_of, open_reply};

mod pieces;

use line::Line;
use refusals::Refusal;
use replies::Reply;
pub use session_rules::LONGEST_REPLY;
use talk::{Event, Session};

// A step's record: whether the call was made or refused, the bytes used, what happened, the bytes of the reply, the fields of an offer's line, and the session after it.
#[derive(Clone, Copy)]
pub struct Step {
    pub stepping: Result<(), Refusal>,
    pub used: usize,
    pub event: Event,
    pub written: usize,
    pub line: Line,
    pub session: Session,
}

#[derive(Clone, Copy)]
pub struct Opened {
    pub stepping: Result<(), Refusal>,
    pub written: usize,
    pub session: Session,
}

// Opens a session: the prompt is written.
pub fn open_session(reply: &mut [u8]) -> Opened
    ensures { (opened_says result ≡ open_of (length reply.old)) × (reply.new ≡ front (open_reply (length reply.old)) reply.old) }
{
    if reply.len() < LONGEST_REPLY {
        return Opened {
            stepping: Err(Refusal::BufferTooShort),
            written: 0,
            session: talk::closed(),
        };
    }
    let written = replies::say(Reply::Prompt, b"", reply);
    Opened {
        stepping: Ok(()),
        written,
        session: talk::listening(),
    }
}

// Feeds a piece of the peer's bytes, up to the end of a line or of a payload.
pub fn feed(s: Session, piece: &[u8], payload: &mut [u8], reply: &mut [u8]) -> Step
    ensures { (says result ≡ (step_of s piece.now payload.old (length reply.old)).step_record) × (payload.new ≡ (step_of s piece.now payload.old (length reply.old)).payload) × (reply.new ≡ front (step_of s piece.now payload.old (length reply.old)).reply reply.old) }
{
    let line = s.line;
    let tested = session_rules::refusal(
        s.mode,
        s.line_len,
        &line,
        s.terms,
        s.got,
        payload.len(),
        reply.len(),
    );
    if let Err(r) = tested {
        return pieces::silent(Err(r), 0, s);
    }
    if s.mode == 2 {
        return pieces::receive(s, piece, payload, reply);
    }
    pieces::listen(s, piece, reply)
}
