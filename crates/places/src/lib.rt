// The sixteen places of a row's held messages, and what the row's rules and calls ask of them.
#![tactic(auto)]

ghost use Rattle.std.specs.Prelude.{◌≡◌, ◌∷◌, ◌++◌, [], take, drop};
ghost use Rattle.octets.specs.Words.{every};
ghost use Rattle.places.specs.Messages.{ascending, holds, gap_open};
ghost use Rattle.std.specs.List.{fold};
ghost use Rattle.places.specs.Places.{blank, is_blank, with_fields, place_for};

// A message that waits: its number, how long a gap before it may stand open (0: for ever), and the slip under which the host keeps it.
#[derive(Clone, Copy)]
pub struct Held {
    pub number: u32,
    pub timeout: u32,
    pub slip: u32,
}

// Whether the places from n on are all empty.
pub fn blank_from(held: [Held; 16], n: usize) -> bool
    ensures { result ≡ every is_blank (drop n held) }
{
    gathered(&held[n.min(16)..]) == 0
}

// All numbers of the messages, bit by bit: 0 where all of them are empty. They are gathered and tested once, since a walk that does not
// leave early runs wide.
fn gathered(held: &[Held]) -> u32
    ensures { result ≡ fold with_fields 0 held.now }
{
    held.iter()
        .fold(0, |all, m| all | m.number | m.timeout | m.slip)
}

// Whether the first n messages ascend strictly, none below `low`.
pub fn ascends(held: [Held; 16], n: usize, low: u64) -> bool
    ensures { result ≡ ascending low (take n held) }
{
    let mut next = low;
    for m in &held[..n.min(16)] {
        let number = u64::from(m.number);
        if number < next {
            return false;
        }
        next = number + 1;
    }
    true
}

// Whether one of the first n messages has the number.
pub fn has(held: [Held; 16], n: usize, number: u32) -> bool
    ensures { result ≡ holds number (take n held) }
{
    held.iter().take(n).any(|m| m.number == number)
}

// The place of the first of the n messages whose number is above `number`, or their count.
pub fn place(held: [Held; 16], n: usize, number: u32) -> usize
    ensures { result ≡ place_for number (take n held) }
{
    held.iter()
        .take(n)
        .take_while(|m| m.number <= number)
        .count()
}

// The places with x at p: those from p on move one place up, and the last falls off.
pub fn with_at(mut held: [Held; 16], p: usize, x: Held) -> [Held; 16]
    ensures { result ≡ take 16 (take p held ++ (x ∷ drop p held)) }
{
    if p >= 16 {
        return held;
    }
    held.copy_within(p..15, p + 1);
    held[p] = x;
    held
}

// The places without the first: each message moves one place down, and the last place is empty.
pub fn without_first(mut held: [Held; 16]) -> [Held; 16]
    ensures { result ≡ drop 1 held ++ (blank ∷ []) }
{
    held.copy_within(1..16, 0);
    held[15] = Held {
        number: 0,
        timeout: 0,
        slip: 0,
    };
    held
}

// ---- the gap

// Whether the gap is open: something is held, and the lowest is above `expected`.
pub fn gap_open(held: [Held; 16], n: usize, expected: u64) -> bool
    ensures { result ≡ gap_open expected (take n held) }
{
    n > 0 && expected < u64::from(held[0].number)
}
