// The text of a line's tokens, read in one pass. Each word is cut once and its key looked up in the table of the reserved keys: the place of
// its value is kept there, and every other key is a header.
#![tactic(auto)]

ghost use Rattle.std.specs.Prelude.{◌≡◌};
ghost use Rattle.std.specs.Option.{option_map};
ghost use Rattle.line_places.specs.Places.{places_of, value_at};

use headers::Headers;

// Where the value of a key stands in the text.
#[derive(Clone, Copy)]
pub struct Place {
    pub start: usize,
    pub len: usize,
}

// The places of the reserved keys that are there, in the order of their table, and the headers.
#[derive(Clone, Copy)]
pub struct Places {
    pub slots: [Option<Place>; 13],
    pub headers: Headers,
}

// The places of all values; none where the rules of the words do not hold.
pub fn read_places(t: &[u8]) -> Option<Places>
    ensures { result ≡ places_of t.now }
{
    let mut slots = [None; 13];
    let mut headers = held_texts::no_headers();
    let mut at = 0;
    // A place is counted from the text's start, which an iterator over its words does not tell.
    while at <= t.len() {
        let word = tokens::before_byte(&t[at..], b' ');
        let n = tokens::bytes_before(word, b'=');
        let chk = slots[names::CHK];
        if !line_words::may_stand(chk.is_some(), n, word.len()) {
            return None;
        }
        let start = at + n + 1;
        let key = &word[..n];
        let value = &word[n + 1..];
        at += word.len() + 1;
        let k = names::reserved_place(key);
        if k < 13 {
            let p = slots[k];
            if p.is_some() {
                return None;
            }
            slots[k] = Some(Place {
                start,
                len: value.len(),
            });
            continue;
        }
        let m = headers.count;
        if !line_words::header_fits(m, value.len()) {
            return None;
        }
        headers.items[m] = envelope::header_text(key, value);
        headers.count = m + 1;
    }
    Some(Places { slots, headers })
}

// The value at a place of the text.
pub fn value(t: &[u8], p: Option<Place>) -> Option<&[u8]>
    ensures { option_map (λ r. r.now) result ≡ value_at t.now p }
{
    let p = p?;
    if t.len() < p.start {
        return Some(&t[..0]);
    }
    Some(lengths::part(&t[p.start..], p.len))
}
