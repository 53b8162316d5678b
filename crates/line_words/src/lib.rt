// Document 01, "The ihave line": what a word must be to stand behind the words before it, a header behind the headers before it, and which
// keys come together.
#![tactic(auto)]

ghost use Rattle.std.specs.Prelude.{◌≡◌};
ghost use Rattle.line_words.specs.Standing.{may_stand, header_room, alike, all_or_none, format_rule};

// A word of `word` bytes, `key` of them before its first `=`: it has its `=`, and `chk` was not among the words before it.
pub fn may_stand(chk: bool, key: usize, word: usize) -> bool
    ensures { result ≡ may_stand chk key word }
{
    !chk && key != word
}

// A header with a value of `value` bytes, behind `count` others.
pub fn header_fits(count: usize, value: usize) -> bool
    ensures { result ≡ header_room count value }
{
    count < 8 && value <= 128
}

// Two keys, as `mid` and `frag`.
pub fn both_or_neither(a: bool, b: bool) -> bool
    ensures { result ≡ alike a b }
{
    a == b
}

// `sid`, `sn` and `gt`.
pub fn all_or_none(sid: bool, sn: bool, gt: bool) -> bool
    ensures { result ≡ all_or_none sid sn gt }
{
    both_or_neither(sid, sn) && both_or_neither(sid, gt)
}

// By whether `fmt` is `p`, whether it is `d`, and whether `clen` is present.
pub fn format_rule(plain: bool, deflated: bool, clen: bool) -> bool
    ensures { result ≡ format_rule plain deflated clen }
{
    (plain || deflated) && both_or_neither(clen, deflated)
}
