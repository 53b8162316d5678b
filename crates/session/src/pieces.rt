// A piece of the peer's bytes: quiet bytes are taken in at once, then at most one byte that stops the call. Where all are quiet the step is made at
// once: nothing is due, and a host that feeds byte by byte pays for one step with no line's fields.
ghost use Rattle.std.specs.Prelude.{◌≡◌, ◌≤◌, ◌<◌, take, replicate, Some};
ghost use Rattle.octets.specs.Bytes.{placed};
ghost use Rattle.refusals.specs.declared.Refusal.{Refusal};
ghost use Rattle.machine.specs.Machine.{run};
ghost use Rattle.talk.specs.declared.Event.{Event};
ghost use Rattle.talk.specs.Sessions.{closed};
ghost use Rattle.talk.specs.Talk.{nothing, told_in};
ghost use Rattle.talk.specs.Answer as talk;
ghost use Rattle.session.specs.Feed.{feed};
ghost use Rattle.session.specs.Answer.{made, answering, says};
ghost use Rattle.session.specs.Runs.{silence, telling, line_turn, Spoken};

use crate::Step;
use refusals::Refusal;
use talk::{Ending, Event, Said, Session, Terms};

// Nothing is said, and nothing happened.
pub(crate) fn silent(stepping: Result<(), Refusal>, used: usize, session: Session) -> Step
    ensures { says result ≡ silence (answering stepping) used Event.Nothing session }
{
    Step {
        stepping,
        used,
        event: Event::Nothing,
        written: 0,
        line: talk::no_line(),
        session,
    }
}

// A 513th byte of a line closes the session, and nothing is said.
fn too_long(used: usize) -> Step
    ensures { says result ≡ silence made used (Event.End (record { reason = Some Refusal.LineMalformed })) closed }
{
    let ending = Ending {
        reason: Some(Refusal::LineMalformed),
    };
    Step {
        stepping: Ok(()),
        used,
        event: Event::End(ending),
        written: 0,
        line: talk::no_line(),
        session: talk::closed(),
    }
}

// What was said.
fn told(used: usize, said: Said) -> Step
    ensures { says result ≡ telling used said }
{
    Step {
        stepping: Ok(()),
        used,
        event: said.event,
        written: said.written,
        line: said.line,
        session: said.session,
    }
}

// A line that is whole: between messages, or after `send`.
#[tactic(auto, using(crate::proofs::Steps::first_turn, crate::proofs::Steps::data_turn))]
fn hear(mode: u8, terms: Terms, text: &[u8], reply: &mut [u8]) -> Said
    ensures { (talk.says result ≡ told_in (line_turn mode terms text.now) reply.old) × (reply.new ≡ placed (line_turn mode terms text.now).reply 0 reply.old) }
{
    if mode == 0 {
        return talk::hear_line(text, reply);
    }
    talk::hear_data(terms, text, reply)
}

// Bytes of a line: up to its LF, to a 513th, or to the piece's end.
pub(crate) fn listen(mut s: Session, piece: &[u8], reply: &mut [u8]) -> Step
    requires { (s.mode ≤ 1) × (s.line_len ≤ 512) }
    ensures { Spoken (run feed nothing 0 s piece.now) (says result) reply.old reply.new }
{
    let before = s.line_len;
    let room = 512 - before;
    let part = tokens::before_byte(piece, b'\n');
    let n = part.len();
    if room < n {
        return too_long(room + 1);
    }
    let mut line = s.line;
    octets::copy_at(part, &mut line, before);
    if n == piece.len() {
        s.line = line;
        s.line_len = before + n;
        return silent(Ok(()), n, s);
    }
    let text = lengths::part(&line, before + n);
    told(n + 1, hear(s.mode, s.terms, text, reply))
}

// Bytes of a payload: to their places and into the digest, up to the last one or to the piece's end. While they come there is no line, so none is
// copied.
pub(crate) fn receive(s: Session, piece: &[u8], payload: &mut [u8], reply: &mut [u8]) -> Step
    requires { (s.mode ≡ 2) × (s.line_len ≡ 0) × (s.line ≡ replicate 512 0) × (s.got < s.terms.len) }
    ensures { Spoken (run feed nothing 0 s piece.now) (says result) reply.old reply.new × (payload.new ≡ placed (take (run feed nothing 0 s piece.now).used piece.now) s.got payload.old) }
{
    let terms = s.terms;
    let hash = s.hash;
    let got = s.got;
    let left = terms.len as usize - got;
    let part = lengths::part(piece, left);
    let n = part.len();
    octets::copy_at(part, payload, got);
    let next = hash.feed_all(part);
    if left <= n {
        return told(n, talk::hear_payload(terms, next, reply));
    }
    let session = Session {
        mode: 2,
        line_len: 0,
        line: [0u8; 512],
        terms,
        got: got + n,
        hash: next,
    };
    silent(Ok(()), n, session)
}
