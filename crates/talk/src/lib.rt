// Document 01, "The receiving session": what a whole line and a whole payload lead to.
#![tactic(auto)]

ghost use Rattle.std.specs.Prelude.{◌≡◌};
ghost use Rattle.octets.specs.Bytes.{placed};
ghost use Rattle.talk.specs.Answer.{says};
ghost use Rattle.line.specs.Reading.{blank_line};
ghost use Rattle.talk.specs.Sessions.{keeps_terms, listening, closed};
ghost use Rattle.talk.specs.Talk.{heard, data_heard, completed, turn_in, told_in};

mod lines;
mod states;

use line::Line;
use refusals::Refusal;
use replies::Reply;
use sha1_digest::Sha1;

// The numbers of an offer: its id (28 bits), its salt where it has one, and the payload's length.
#[derive(Clone, Copy)]
pub struct Terms {
    pub id: u32,
    pub salt: Option<i64>,
    pub len: u32,
}

// Why a session ended: no reason after `bye`, 1 to 4 from a line, else 1.
#[derive(Clone, Copy)]
pub struct Ending {
    pub reason: Option<Refusal>,
}

// What happened.
#[derive(Clone, Copy)]
pub enum Event {
    Nothing,
    Offer(Terms),
    Message(Terms),
    End(Ending),
}

// Mode 0: between messages. 1: an offer waits for its data line. 2: its payload comes. 3: closed. The line so far is the first `line_len`
// bytes of `line`, zero past them; `got` bytes of the payload have come, and `hash` is their running digest.
// A number for the mode: a host hands sessions in, and keeps_session (40) speaks of modes above 3.
#[derive(Clone, Copy)]
pub struct Session {
    pub mode: u8,
    pub line_len: usize,
    pub line: [u8; 512],
    pub terms: Terms,
    pub got: usize,
    pub hash: Sha1,
}

// What was said and what happened: the bytes written, the event with the fields of its line, and the session after it.
#[derive(Clone, Copy)]
pub struct Said {
    pub written: usize,
    pub event: Event,
    pub line: Line,
    pub session: Session,
}

// What is due: the reply, what happened with the fields of its line, and the session after it.
#[derive(Clone, Copy)]
pub(crate) struct Due {
    pub reply: Reply,
    pub event: Event,
    pub line: Line,
    pub session: Session,
}

// A session between messages.
pub fn listening() -> Session
    ensures { result ≡ listening }
{
    states::entered(0, states::no_terms(), Sha1::new())
}

// A closed session.
pub fn closed() -> Session
    ensures { result ≡ closed }
{
    states::entered(3, states::no_terms(), Sha1::new())
}

// Whether an offer may have these numbers.
#[tactic(auto, unfolding(crate::specs::Sessions::keeps_terms))]
pub fn keep_rules(t: Terms) -> bool
    ensures { result ≡ keeps_terms t }
{
    field_rules::id_rule(t.id) && t.len as usize <= refusals::LONGEST_PAYLOAD
}

// The line of no offer.
#[tactic(auto, unfolding(line::specs::Reading::blank_line))]
pub fn no_line() -> Line
    ensures { result ≡ blank_line }
{
    Line {
        len: 0,
        fields: envelope::blank(),
    }
}

// What is due is said; the reply stands at the front of a lent buffer.
fn say(due: Due, text: &[u8], reply: &mut [u8]) -> Said
    ensures { (says result ≡ told_in (turn_in text.now due) reply.old) × (reply.new ≡ placed (turn_in text.now due).reply 0 reply.old) }
{
    Said {
        written: replies::say(due.reply, text, reply),
        event: due.event,
        line: due.line,
        session: due.session,
    }
}

// A whole line between messages.
pub fn hear_line(text: &[u8], reply: &mut [u8]) -> Said
    ensures { (says result ≡ told_in (heard text.now) reply.old) × (reply.new ≡ placed (heard text.now).reply 0 reply.old) }
{
    say(lines::hear_line(text), text, reply)
}

// The line after `send`.
pub fn hear_data(terms: Terms, text: &[u8], reply: &mut [u8]) -> Said
    ensures { (says result ≡ told_in (data_heard terms text.now) reply.old) × (reply.new ≡ placed (data_heard terms text.now).reply 0 reply.old) }
{
    say(lines::hear_data(terms, text), text, reply)
}

// A whole payload, by its digest.
pub fn hear_payload(terms: Terms, hash: Sha1, reply: &mut [u8]) -> Said
    ensures { (says result ≡ told_in (completed terms hash) reply.old) × (reply.new ≡ placed (completed terms hash).reply 0 reply.old) }
{
    say(lines::complete(terms, hash), b"", reply)
}
