// What is due on a line or a payload that is whole.
ghost use Rattle.std.specs.Prelude.{◌≡◌};
ghost use Rattle.line.specs.Reading.{read_of};
ghost use Rattle.replies.specs.declared.Reply.{Reply};
ghost use Rattle.talk.specs.declared.Event.{Event};
ghost use Rattle.talk.specs.Sessions.{terms_of, listening, promised, closed};
ghost use Rattle.talk.specs.Talk.{Completes, offered, data_heard, heard, reply_due, turn_in};

use crate::{Due, Ending, Event, Session, Terms, states};
use line::Line;
use refusals::Refusal;
use replies::Reply;
use sha1_digest::Sha1;

// A reply, what happened, and the session after it, with no line's fields.
fn plain(reply: Reply, event: Event, session: Session) -> Due
    ensures { result ≡ reply_due reply event session }
{
    Due {
        reply,
        event,
        line: crate::no_line(),
        session,
    }
}

// A reply, and the session is closed for a reason.
fn ends(reply: Reply, reason: Option<Refusal>) -> Due
    ensures { result ≡ reply_due reply (Event.End (record { reason = reason })) closed }
{
    plain(reply, Event::End(Ending { reason }), crate::closed())
}

// A reply, and the next line is waited for.
fn goes_on(reply: Reply) -> Due
    ensures { result ≡ reply_due reply Event.Nothing listening }
{
    plain(reply, Event::Nothing, crate::listening())
}

// A payload that is there as a whole, by its digest.
#[tactic(auto, unfolding(crate::specs::Talk::completed, replies::specs::Replies::reply_text))]
pub(crate) fn complete(terms: Terms, hash: Sha1) -> Due
    ensures { Completes result terms hash }
{
    let id = terms.id;
    if hash.first_28_bits() != id {
        return goes_on(Reply::Bad(id));
    }
    plain(Reply::Ack(id), Event::Message(terms), crate::listening())
}

// `send ID`, and the next line must be its `data`.
fn promise(line: Line) -> Due
    ensures { result ≡ record { reply = Reply.Send line.fields.id; event = Event.Offer (terms_of line); line = line; session = promised (terms_of line) } }
{
    let terms = Terms {
        id: line.fields.id,
        salt: line.fields.salt,
        len: line.len,
    };
    Due {
        reply: Reply::Send(terms.id),
        event: Event::Offer(terms),
        line,
        session: states::entered(1, terms, Sha1::new()),
    }
}

// An `ihave` line: a valid one is promised, an invalid one ends the session for its own reason.
#[tactic(auto, unfolding(replies::specs::Replies::reply_text))]
fn hear_offer(s: &[u8]) -> Due
    ensures { turn_in s.now result ≡ offered s.now (read_of s.now).reading (read_of s.now).line }
{
    match line::read_line(s) {
        Ok(line) => promise(line),
        Err(r) => ends(Reply::ErrorToken, Some(r)),
    }
}

// The line after `send`.
#[tactic(auto, unfolding(crate::specs::Talk::data_heard, replies::specs::Replies::reply_text))]
pub(crate) fn hear_data(terms: Terms, s: &[u8]) -> Due
    ensures { turn_in s.now result ≡ data_heard terms s.now }
{
    if !crate::keep_rules(terms) {
        return ends(Reply::Silence, Some(Refusal::LineMalformed));
    }
    if !phrases::is_data(terms.id, s) {
        return ends(Reply::Silence, Some(Refusal::LineMalformed));
    }
    let hash = Sha1::salted(terms.salt);
    if terms.len == 0 {
        return complete(terms, hash);
    }
    plain(
        Reply::Silence,
        Event::Nothing,
        states::entered(2, terms, hash),
    )
}

// A line between messages, by its kind.
#[tactic(auto, unfolding(crate::specs::Talk::heard, replies::specs::Replies::reply_text))]
pub(crate) fn hear_line(s: &[u8]) -> Due
    ensures { turn_in s.now result ≡ heard s.now }
{
    match phrases::kind_of(s) {
        phrases::Kind::Ihave => hear_offer(s),
        phrases::Kind::Data => ends(Reply::Error, Some(Refusal::LineMalformed)),
        phrases::Kind::Leave => ends(Reply::Bye, None),
        phrases::Kind::Ask => goes_on(Reply::Help),
        phrases::Kind::Other => goes_on(Reply::Eh),
    }
}
