// Document 01, "The receiving session": what is said to the peer.
#![tactic(auto)]

ghost use Rattle.std.specs.Prelude.{◌≡◌};
ghost use Rattle.octets.specs.Bytes.{placed};
ghost use Rattle.replies.specs.Replies.{reply_text, wrote};

mod texts;

// What is said: nothing; the prompt; `send ID`; `error`, alone or with the token of the line; `ack ID` or `bad ID`, then the prompt; `bye`;
// the help text and `eh?`, each with the prompt.
#[derive(Clone, Copy)]
pub enum Reply {
    Silence,
    Prompt,
    Send(u32),
    Error,
    ErrorToken,
    Ack(u32),
    Bad(u32),
    Bye,
    Help,
    Eh,
}

// A reply to the line `s` at the front of a lent buffer: how many bytes were written, none where it does not fit.
pub fn say(reply: Reply, s: &[u8], out: &mut [u8]) -> usize
    ensures { (result ≡ wrote (reply_text reply s.now) out.old) × (out.new ≡ placed (reply_text reply s.now) 0 out.old) }
{
    match reply {
        Reply::Silence => 0,
        Reply::Prompt => texts::put(texts::PROMPT, texts::HELP, out),
        Reply::Send(id) => texts::put_id(
            texts::SEND,
            texts::ACK,
            id,
            texts::ERROR_LF,
            texts::BYE,
            out,
        ),
        Reply::Error => texts::put(texts::ERROR, texts::BYE, out),
        Reply::ErrorToken => texts::put_error(texts::token(s), out),
        Reply::Ack(id) => texts::put_id(texts::ACK, texts::BAD, id, texts::EH_LF, texts::HELP, out),
        Reply::Bad(id) => texts::put_id(
            texts::BAD,
            texts::ERROR_T,
            id,
            texts::EH_LF,
            texts::HELP,
            out,
        ),
        Reply::Bye => texts::put(texts::BYE, texts::EH, out),
        Reply::Help => texts::put(texts::HELP, texts::END, out),
        Reply::Eh => texts::put(texts::EH, texts::HELP, out),
    }
}
