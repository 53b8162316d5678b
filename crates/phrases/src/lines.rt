// The words that begin a line, or that a line is.
ghost use Rattle.std.specs.Prelude.{◌≡◌, map};
ghost use Rattle.octets.specs.Words.{some};
ghost use Rattle.phrases.specs.Lines.{verb, lower, spells, leaving, asking};

// Whether a line is that word, or begins with it and a space.
#[tactic(auto, unfolding(crate::specs::Lines::verb))]
pub(crate) fn is_verb(s: &[u8], word: &[u8]) -> bool
    ensures { result ≡ verb word.now s.now }
{
    match s.strip_prefix(word) {
        Some(rest) => rest.is_empty() || rest[0] == b' ',
        None => false,
    }
}

// Whether a line is that word in any letter case.
#[tactic(auto, unfolding(crate::specs::Lines::spells))]
fn is_word(s: &[u8], word: &[u8]) -> bool
    ensures { result ≡ spells s.now (map lower word.now) }
{
    s.eq_ignore_ascii_case(word)
}

// Whether a line is a wish to leave: one of these words, in any letter case.
pub(crate) fn leaves(s: &[u8]) -> bool
    ensures { result ≡ some (spells s.now) leaving }
{
    is_word(s, b"quit") || is_word(s, b"q") || is_word(s, b"bye") || is_word(s, b"exit")
}

// Whether a line is a question: one of these words, in any letter case.
pub(crate) fn asks(s: &[u8]) -> bool
    ensures { result ≡ some (spells s.now) asking }
{
    is_word(s, b"help") || is_word(s, b"info")
}
