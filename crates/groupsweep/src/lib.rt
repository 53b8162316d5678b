// Document 01, "Fragments": old groups swept, and whether a group is complete. No state rule is tested here.
#![tactic(auto)]

ghost use Rattle.std.specs.Prelude.{◌≡◌};
ghost use Rattle.groupsweep.specs.Sweep.{swept_group, swept_all, stands_complete};

use groups::{Group, Groups};

// Frees the group where it is incomplete and old. An earlier clock means age 0.
#[tactic(auto, unfolding(crate::specs::Sweep::swept_group))]
fn sweep(x: &mut Group, time: u32)
    ensures { x.new ≡ swept_group time x.old }
{
    if x.is_open && !groups::is_complete(*x) && time.saturating_sub(x.began) >= 604800 {
        *x = groups::free_group();
    }
}

// Frees each incomplete group whose first fragment came 604,800 s ago or more.
pub fn sweep_all(groups: Groups, time: u32) -> Groups
    ensures { result ≡ swept_all groups time }
{
    let mut items = groups.items;
    for x in items.iter_mut() {
        sweep(x, time);
    }
    Groups { items }
}

// Whether group `number`, 0 to 3, is open and complete.
pub fn stands_complete(groups: Groups, number: usize) -> bool
    ensures { result ≡ stands_complete groups number }
{
    if number >= 4 {
        return false;
    }
    let x = groups.items[number];
    x.is_open && groups::is_complete(x)
}
