// The rules that the groups keep (40). The groups are read where they stand: a copy for each rule costs more than the rule.
ghost use Rattle.std.specs.Prelude.{◌≡◌, drop};
ghost use Rattle.octets.specs.Words.{every, some};
ghost use Rattle.groups.specs.Groups.{is_held, has_key, keeps_piece, keeps_pieces, keeps_use, keeps_group, twice, distinct};

use crate::{Group, Groups, Piece};
use groupkeys::Key;

#[tactic(auto, unfolding(crate::specs::Groups::has_key))]
pub(crate) fn has_key(key: Key, x: &Group) -> bool
    ensures { result ≡ has_key key x.now }
{
    x.is_open && groupkeys::same(key, x.key)
}

#[tactic(auto, unfolding(crate::specs::Groups::keeps_piece))]
fn keeps_piece(total: usize, n: usize, p: Piece) -> bool
    ensures { result ≡ keeps_piece total n p }
{
    if !p.held {
        return p.len == 0;
    }
    n < total && usize::from(p.len) <= crate::PLACE
}

fn keep_pieces(x: &Group) -> bool
    ensures { result ≡ keeps_pieces x.now.total 0 x.now.pieces }
{
    x.pieces
        .iter()
        .enumerate()
        .all(|(n, p)| keeps_piece(x.total, n, *p))
}

// Whether a group holds a fragment.
fn holds_some(x: &Group) -> bool
    ensures { result ≡ some is_held x.now.pieces }
{
    x.pieces.iter().any(|p| p.held)
}

fn keeps_use(x: &Group) -> bool
    ensures { result ≡ keeps_use x.now }
{
    if x.is_open {
        return (2..=16).contains(&x.total) && holds_some(x);
    }
    !x.key.has_originator && x.key.master == 0 && x.total == 0 && x.began == 0
}

#[tactic(auto, unfolding(crate::specs::Groups::keeps_group))]
fn keeps_group(x: &Group) -> bool
    ensures { result ≡ keeps_group x.now }
{
    keep_pieces(x) && groupkeys::keeps(x.key) && keeps_use(x)
}

// Whether every group keeps its rules.
pub(crate) fn each_keeps(t: &Groups) -> bool
    ensures { result ≡ every keeps_group t.now.items }
{
    t.items.iter().all(keeps_group)
}

// Whether a group from `from` on has the key.
fn has_from(t: &Groups, key: Key, from: usize) -> bool
    ensures { result ≡ some (has_key key) (drop from t.now.items) }
{
    t.items.iter().skip(from).any(|x| has_key(key, x))
}

// Whether group x is open, and one of the groups from `from` on has its key.
fn is_twice(x: Group, t: &Groups, from: usize) -> bool
    ensures { result ≡ twice x (drop from t.now.items) }
{
    x.is_open && has_from(t, x.key, from)
}

// Whether no two open groups have equal keys.
pub(crate) fn keys_differ(t: &Groups) -> bool
    ensures { result ≡ distinct t.now.items }
{
    for (i, x) in t.items.iter().enumerate() {
        if is_twice(*x, t, i + 1) {
            return false;
        }
    }
    true
}
