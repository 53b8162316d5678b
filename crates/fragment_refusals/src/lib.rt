// Document 01, "Fragments": what refuses a call on the groups, in its order, by what the tests found.
#![tactic(auto)]

ghost use Rattle.std.specs.Prelude.{◌≡◌};
ghost use Rattle.refusals.specs.Refusals.{refusal_in};
ghost use Rattle.fragment_refusals.specs.Order.{fragment_ranged, number_in, refuses_key, refuses_joining, refuses_collecting};

use refusals::Refusal;

// Whether N, M and the length are in their ranges.
#[tactic(auto, unfolding(crate::specs::Order::fragment_ranged))]
pub fn in_range(number: usize, total: usize, len: usize) -> bool
    ensures { result ≡ fragment_ranged number total len }
{
    (2..=16).contains(&total) && (1..=total).contains(&number) && len <= groups::PLACE
}

// The tests that every call on a key makes first: 40, 23, the refusal of the key, where there is one, 17.
pub fn refuses_call(
    broken: bool,
    other_length: bool,
    named: Option<Refusal>,
    outside: bool,
) -> Result<(), Refusal>
    ensures { refusal_in result ≡ refuses_key broken other_length (number_in named) outside }
{
    if broken {
        return Err(Refusal::StateBroken);
    }
    if other_length {
        return Err(Refusal::StoreLength);
    }
    if let Some(r) = named {
        return Err(r);
    }
    if outside {
        return Err(Refusal::FragmentMalformed);
    }
    Ok(())
}

// The same tests by number, 0 where nothing refuses: the number that refuses the key may be any, and 17 is told only where there is none.
pub fn refuses_key(broken: bool, other_length: bool, named: u8, outside: bool) -> u8
    ensures { result ≡ refuses_key broken other_length named outside }
{
    match refuses_call(broken, other_length, None, named == 0 && outside) {
        Ok(()) => named,
        Err(refusal) => refusal.number(),
    }
}

// A fragment for a group that is there: 18, then 19.
pub fn refuses_joining(differs: bool, held: bool) -> Result<(), Refusal>
    ensures { refusal_in result ≡ refuses_joining differs held }
{
    if differs {
        return Err(Refusal::OtherTotal);
    }
    if held {
        return Err(Refusal::FragmentHeld);
    }
    Ok(())
}

// A group that is collected: 21, then 5.
pub fn refuses_collecting(incomplete: bool, short: bool) -> Result<(), Refusal>
    ensures { refusal_in result ≡ refuses_collecting incomplete short }
{
    if incomplete {
        return Err(Refusal::NotComplete);
    }
    if short {
        return Err(Refusal::BufferTooShort);
    }
    Ok(())
}
