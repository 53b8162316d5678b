// Document 01, "The receiving session": what a peer's line is.
#![tactic(auto)]

ghost use Rattle.std.specs.Prelude.{◌≡◌};
ghost use Rattle.phrases.specs.Lines.{kind_of, is_data};

mod lines;

// `ihave` and `data`; a wish to leave (`quit`, `q`, `bye`, `exit`); a question (`help`, `info`); all else.
#[derive(Clone, Copy)]
pub enum Kind {
    Ihave,
    Data,
    Leave,
    Ask,
    Other,
}

// What a line is.
#[tactic(auto, unfolding(crate::specs::Lines::kind_of))]
pub fn kind_of(s: &[u8]) -> Kind
    ensures { result ≡ kind_of s.now }
{
    if lines::is_verb(s, b"ihave") {
        return Kind::Ihave;
    }
    if lines::is_verb(s, b"data") {
        return Kind::Data;
    }
    if lines::leaves(s) {
        return Kind::Leave;
    }
    if lines::asks(s) {
        return Kind::Ask;
    }
    Kind::Other
}

// Whether a line is `data ID`.
pub fn is_data(id: u32, s: &[u8]) -> bool
    ensures { result ≡ is_data id s.now }
{
    let mut line = *b"data 0000000";
    text::write_id(id, &mut line, 5);
    s == line.as_slice()
}
