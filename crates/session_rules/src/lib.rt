// Document 01, "The receiving session": what a call tests before it feeds a piece: the rules of a session (40), whether it is closed (22), and
// the lent buffers (5).
#![tactic(auto)]

ghost use Rattle.std.specs.Prelude.{◌≡◌};
ghost use Rattle.refusals.specs.Refusals.{refusal_in};
ghost use Rattle.session_rules.specs.Rules.{session_by, step_refusal};

mod rules;

use refusals::Refusal;
use talk::Terms;

// The longest reply, and the shortest reply buffer.
pub const LONGEST_REPLY: usize = 24;

// What refuses a call: 40, then 22, then 5. It takes the fields that have rules, and the line by reference: a session
// that is passed on is copied.
#[tactic(auto, unfolding(crate::specs::Rules::step_refusal))]
pub fn refusal(
    mode: u8,
    line_len: usize,
    line: &[u8; 512],
    terms: Terms,
    got: usize,
    payload: usize,
    reply: usize,
) -> Result<(), Refusal>
    ensures { refusal_in result ≡ step_refusal (session_by mode line_len line.now terms got) payload reply }
{
    if !rules::keep_rules(mode, line_len, line, terms, got) {
        return Err(Refusal::StateBroken);
    }
    if mode == 3 {
        return Err(Refusal::SessionClosed);
    }
    if rules::too_short(payload, reply) {
        return Err(Refusal::BufferTooShort);
    }
    Ok(())
}
