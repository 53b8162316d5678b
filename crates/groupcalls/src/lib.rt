// Document 01, "Fragments": what adding a fragment, collecting a complete group and sweeping old groups come to on the groups alone.
// The groups go in by value and come back in the answer; a refusal leaves them as they were. The bytes of the fragments are not here.
#![tactic(auto)]

ghost use Rattle.std.specs.Prelude.{◌≡◌, option_map};
ghost use Rattle.groupcalls.specs.Answer.{added, gathered, done, says, standing_says};
ghost use Rattle.groupcalls.specs.Calls.{add, collect, sweep, standing};
ghost use Rattle.groupkeys.specs.Key.{named_of};

mod calls;

use groups::Groups;
use refusals::Refusal;

// The group that was collected, and how many bytes it held.
#[derive(Clone, Copy)]
pub struct Collected {
    pub group: usize,
    pub len: usize,
}

// What a call answers, and the groups after it.
#[derive(Clone, Copy)]
pub struct Served<T> {
    pub answer: Result<T, Refusal>,
    pub groups: Groups,
}

#[derive(Clone, Copy)]
pub enum Standing {
    Complete,
    Incomplete,
}

// Fragment N of M: its number, M, its length, and when it came.
#[derive(Clone, Copy)]
pub struct Fragment {
    pub number: usize,
    pub total: usize,
    pub len: usize,
    pub time: u32,
}

// Adds a fragment to the group of the key, or to the lowest free one, and answers with the group; `size` is the store's length.
pub fn add(
    groups: Groups,
    size: usize,
    originator: Option<&[u8]>,
    master: u32,
    f: Fragment,
) -> Served<usize>
    ensures { says added result ≡ add groups size (named_of (option_map (λ s. s.now) originator.entry) master) f }
{
    let named = groupkeys::name(originator, master);
    let mut after = groups;
    let answer = calls::try_add(&mut after, size, named, f);
    Served {
        answer,
        groups: after,
    }
}

// Frees the complete group of the key, if what it holds fits into the room that there is.
pub fn collect(
    groups: Groups,
    size: usize,
    originator: Option<&[u8]>,
    master: u32,
    room: usize,
) -> Served<Collected>
    ensures { says gathered result ≡ collect groups size (named_of (option_map (λ s. s.now) originator.entry) master) room }
{
    let named = groupkeys::name(originator, master);
    let mut after = groups;
    let answer = calls::try_collect(&mut after, size, named, room);
    Served {
        answer,
        groups: after,
    }
}

// Frees each incomplete group whose first fragment came 604,800 s ago or more.
#[tactic(auto, unfolding(crate::specs::Calls::sweep))]
pub fn sweep_groups(groups: Groups, time: u32) -> Served<()>
    ensures { says done result ≡ sweep groups time }
{
    if !groups.keep_rules() {
        return Served {
            answer: Err(Refusal::StateBroken),
            groups,
        };
    }
    Served {
        answer: Ok(()),
        groups: groupsweep::sweep_all(groups, time),
    }
}

// Whether group `number`, 0 to 3, is complete.
#[tactic(auto, unfolding(crate::specs::Calls::standing))]
pub fn standing_of(groups: Groups, number: usize) -> Result<Standing, Refusal>
    ensures { standing_says result ≡ standing groups number }
{
    if !groups.keep_rules() {
        return Err(Refusal::StateBroken);
    }
    if groupsweep::stands_complete(groups, number) {
        return Ok(Standing::Complete);
    }
    Ok(Standing::Incomplete)
}
