// Document 01, "Fragments": a fragment is added to the house store, and a complete group is collected from it.
// The groups go in by value and come back in the answer; the store is lent, and a refusal leaves both as they were.
#![tactic(auto)]

ghost use Rattle.std.specs.Prelude.{◌≡◌, length, option_map};
ghost use Rattle.groupkeys.specs.Key.{named_of};
ghost use Rattle.groupcalls.specs.Answer.{added, gathered, says};
ghost use Rattle.groupcalls.specs.Calls.{add, collect};
ghost use Rattle.fragments.specs.Store.{store_after, out_after};

mod store;

use groupcalls::{Collected, Fragment, Served};
use groups::Groups;

// Adds fragment `number` of `total` to the group of the key; an unknown key takes the lowest free group.
pub fn add_fragment(
    groups: Groups,
    store: &mut [u8],
    originator: Option<&[u8]>,
    master: u32,
    number: usize,
    total: usize,
    bytes: &[u8],
    time: u32,
) -> Served<usize>
    ensures { (says added result ≡ add groups (length store.old) (named_of (option_map (λ s. s.now) originator.entry) master)
        (record { number = number; total = total; len = length bytes.now; time = time }))
        × (store.new ≡ store_after (says added result).answer number bytes.now store.old) }
{
    let f = Fragment {
        number,
        total,
        len: bytes.len(),
        time,
    };
    let s = groupcalls::add(groups, store.len(), originator, master, f);
    if let Ok(g) = s.answer {
        octets::copy_at(bytes, store, (16 * g + number - 1) * groups::PLACE);
    }
    s
}

// Writes the fragments 1 to M of a complete group, joined, to the front of `out`, and frees the group.
pub fn collect_group(
    groups: Groups,
    store: &[u8],
    originator: Option<&[u8]>,
    master: u32,
    out: &mut [u8],
) -> Served<Collected>
    ensures { (says gathered result ≡ collect groups (length store.now) (named_of (option_map (λ s. s.now) originator.entry) master) (length out.old))
        × (out.new ≡ out_after (says gathered result).answer groups store.now out.old) }
{
    let s = groupcalls::collect(groups, store.len(), originator, master, out.len());
    if let Ok(c) = s.answer {
        let g = c.group;
        let x = groups.items[g];
        store::join(x, g, store, out);
    }
    s
}
