// The rule of bytes that stream ids, header keys and header values keep.
ghost use Rattle.std.specs.Prelude.{◌≡◌};
ghost use Rattle.octets.specs.Words.{every};
ghost use Rattle.names.specs.Texts.{text_byte, ruled, id_text};

// Whether a byte keeps the rule; `equals` says whether it may be `=`.
#[tactic(auto, unfolding(crate::specs::Texts::text_byte))]
fn passes(x: u8, equals: bool) -> bool
    ensures { result ≡ text_byte equals x }
{
    0x21 <= x && x != 0x7F && (equals || x != b'=')
}

// Whether every byte keeps the rule.
fn all_pass(s: &[u8], equals: bool) -> bool
    ensures { result ≡ every (text_byte equals) s.now }
{
    s.iter().all(|x| passes(*x, equals))
}

// Whether a text is well-formed UTF-8 of bytes that keep the rule.
#[tactic(auto, unfolding(crate::specs::Texts::ruled))]
pub(crate) fn is_ruled(s: &[u8], equals: bool) -> bool
    ensures { result ≡ ruled equals s.now }
{
    utf8::well_formed(s) && all_pass(s, equals)
}

// Whether a text of 1 to `most` bytes keeps the stream id's rule.
#[tactic(auto, unfolding(crate::specs::Texts::id_text))]
pub(crate) fn is_id_text(s: &[u8], most: usize) -> bool
    ensures { result ≡ id_text most s.now }
{
    1 <= s.len() && s.len() <= most && is_ruled(s, false)
}
