// The steps of the calls: the tests that they share, a fragment more in a group, a group freed.
// A step works on the call's own copy of the groups, and a refused one leaves it as it came.
ghost use Rattle.std.specs.Prelude.{◌≡◌, true, ◌<◌, length, IfOk, Ok};
ghost use Rattle.refusals.specs.Refusals.{refusal_in};
ghost use Rattle.groups.specs.Groups.{with_group};
ghost use Rattle.groupcalls.specs.Answer.{added, gathered, told};
ghost use Rattle.groupcalls.specs.Calls.{gate, in_range, with_fragment, add_at, add_new, add, collect_at, collect};

use crate::{Collected, Fragment};
use groupkeys::Key;
use groups::{Group, Groups, Piece};
use refusals::Refusal;

// The tests that every call on a key makes first, and the key.
#[tactic(auto, unfolding(crate::specs::Calls::gate))]
fn gate(t: Groups, size: usize, named: Result<Key, Refusal>, ranged: bool) -> Result<Key, Refusal>
    ensures number { refusal_in result ≡ gate t size named ranged }
    ensures key { IfOk result (λ k. named ≡ Ok k) }
{
    let refused = named.err();
    fragment_refusals::refuses_call(!t.keep_rules(), size != groups::STORE, refused, !ranged)?;
    named
}

// Group g of the groups is x with one fragment more.
#[tactic(auto, unfolding(fragment_refusals::specs::Order::fragment_ranged))]
fn add_to(t: &mut Groups, g: usize, x: Group, f: Fragment)
    requires { (g < 4) × (in_range f ≡ true) }
    ensures { t.new ≡ with_group t.old g (with_fragment x f) }
{
    let p = Piece {
        held: true,
        len: f.len as u16,
    };
    let n = f.number - 1;
    let mut y = x;
    y.pieces[n] = p;
    t.items[g] = y;
}

// The group of the key is there: 18, then 19.
#[tactic(auto, unfolding(fragment_refusals::specs::Order::fragment_ranged))]
fn add_at(t: &mut Groups, g: usize, f: Fragment) -> Result<usize, Refusal>
    requires { (g < 4) × (in_range f ≡ true) }
    ensures { told added result t.new ≡ add_at t.old g f }
{
    let x = t.items[g];
    let at = f.number - 1;
    let p = x.pieces[at];
    fragment_refusals::refuses_joining(x.total != f.total, p.held)?;
    add_to(t, g, x, f);
    Ok(g)
}

// The key is unknown: 20, or the lowest free group.
fn add_new(t: &mut Groups, key: Key, f: Fragment) -> Result<usize, Refusal>
    requires { (length t.old.items ≡ 4) × (in_range f ≡ true) }
    ensures { told added result t.new ≡ add_new t.old key f }
{
    let g = t.find_free().ok_or(Refusal::NoFreeGroup)?;
    let x = Group {
        is_open: true,
        key,
        total: f.total,
        began: f.time,
        ..groups::free_group()
    };
    add_to(t, g, x, f);
    Ok(g)
}

pub(crate) fn try_add(
    t: &mut Groups,
    size: usize,
    named: Result<Key, Refusal>,
    f: Fragment,
) -> Result<usize, Refusal>
    ensures { told added result t.new ≡ add t.old size named f }
{
    let ranged = fragment_refusals::in_range(f.number, f.total, f.len);
    let key = gate(*t, size, named, ranged)?;
    match t.find(key) {
        Some(g) => add_at(t, g, f),
        None => add_new(t, key, f),
    }
}

// The group of the key is there: 21, then 5, then it is freed.
fn collect_at(t: &mut Groups, g: usize, room: usize) -> Result<Collected, Refusal>
    requires { g < 4 }
    ensures { told gathered result t.new ≡ collect_at t.old g room }
{
    let x = t.items[g];
    let len = groups::joined_length(x);
    fragment_refusals::refuses_collecting(!groups::is_complete(x), room < len)?;
    t.items[g] = groups::free_group();
    Ok(Collected { group: g, len })
}

pub(crate) fn try_collect(
    t: &mut Groups,
    size: usize,
    named: Result<Key, Refusal>,
    room: usize,
) -> Result<Collected, Refusal>
    ensures { told gathered result t.new ≡ collect t.old size named room }
{
    let key = gate(*t, size, named, true)?;
    let g = t.find(key).ok_or(Refusal::NotComplete)?;
    collect_at(t, g, room)
}
