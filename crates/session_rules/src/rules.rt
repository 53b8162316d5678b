// The tests, one by one.
ghost use Rattle.std.specs.Prelude.{◌≡◌, if◌then◌else◌};
ghost use Rattle.octets.specs.Words.{◌or◌, ◌<?◌, ◌=?◌};
ghost use Rattle.refusals.specs.Numbers.{longest_payload};
ghost use Rattle.session_rules.specs.Rules.{session_by, keeps_session, longest_reply};

use talk::Terms;

// The longest line that a mode may have.
fn longest_line(mode: u8) -> usize
    ensures { result ≡ (if mode <? 2 then 512 else 0) }
{
    if mode < 2 {
        return 512;
    }
    0
}

#[tactic(auto, unfolding(crate::specs::Rules::keeps_session, crate::specs::Rules::keeps_line, crate::specs::Rules::keeps_payload))]
pub(crate) fn keep_rules(mode: u8, n: usize, line: &[u8; 512], terms: Terms, got: usize) -> bool
    ensures { result ≡ keeps_session (session_by mode n line.now terms got) }
{
    mode <= 3
        && n <= longest_line(mode)
        && lengths::zero_from(line, n)
        && talk::keep_rules(terms)
        && keeps_payload(mode, terms, got)
}

// Whether a byte of a payload that comes is still to come; where none comes, whether none has come.
fn keeps_payload(mode: u8, terms: Terms, got: usize) -> bool
    ensures { result ≡ (if mode =? 2 then got <? terms.len else got =? 0) }
{
    if mode == 2 {
        return got < terms.len as usize;
    }
    got == 0
}

// Whether a lent buffer is too short (5).
pub(crate) fn too_short(payload: usize, reply: usize) -> bool
    ensures { result ≡ (payload <? longest_payload or reply <? longest_reply) }
{
    payload < refusals::LONGEST_PAYLOAD || reply < crate::LONGEST_REPLY
}
