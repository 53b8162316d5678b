// Document 01, "Fragments": the four groups of the house store, their keys, and the rules that they keep (40).
// The state is here, by value; the bytes of the fragments lie in the store, which the host lends.
#![tactic(auto)]

ghost use Rattle.std.specs.Prelude.{◌≡◌, ◌≤◌, length, position};
ghost use Rattle.groups.specs.Groups.{free_group, empty, keeps_groups, has_key, is_free, complete, bytes_in, joined_length};

mod rules;

use groupkeys::Key;

// A place's size in bytes.
pub const PLACE: usize = 1024;

// The store's size in bytes: 4 groups of 16 places.
pub const STORE: usize = 64 * PLACE;

// Whether a fragment is held, and how long it is.
// A flag and not an Option: a host hands groups in, and keeps_piece (40) speaks of the length of a fragment that is not held.
#[derive(Clone, Copy)]
pub struct Piece {
    pub held: bool,
    pub len: u16,
}

// A group with its key, M, when its first fragment came, and its fragments 1 to 16; or a free one, all zero.
// A flag and not an Option: a host hands groups in, and keeps_use (40) speaks of what a free group holds.
#[derive(Clone, Copy)]
pub struct Group {
    pub is_open: bool,
    pub key: Key,
    pub total: usize,
    pub began: u32,
    pub pieces: [Piece; 16],
}

#[derive(Clone, Copy)]
pub struct Groups {
    pub items: [Group; 4],
}

impl Groups {
    // 4 free groups.
    pub fn new() -> Groups
        ensures { result ≡ empty }
    {
        Groups {
            items: [free_group(); 4],
        }
    }

    // Whether the groups keep the rules (40).
    #[tactic(auto, unfolding(crate::specs::Groups::keeps_groups))]
    pub fn keep_rules(self) -> bool
        ensures { result ≡ keeps_groups self }
    {
        rules::each_keeps(&self) && rules::keys_differ(&self)
    }

    // The group that has the key.
    pub fn find(self, key: Key) -> Option<usize>
        ensures { result ≡ position (has_key key) self.items }
    {
        self.items.iter().position(|x| rules::has_key(key, x))
    }

    // The lowest free group.
    pub fn find_free(self) -> Option<usize>
        ensures { result ≡ position is_free self.items }
    {
        self.items.iter().position(|x| !x.is_open)
    }
}

// A free group.
pub fn free_group() -> Group
    ensures { result ≡ free_group }
{
    let none = Piece {
        held: false,
        len: 0,
    };
    Group {
        is_open: false,
        key: groupkeys::no_key(),
        total: 0,
        began: 0,
        pieces: [none; 16],
    }
}

// Whether a group holds all of its fragments 1 to M.
pub fn is_complete(x: Group) -> bool
    ensures { result ≡ complete x }
{
    x.pieces.iter().take(x.total).all(|p| p.held)
}

// How many bytes the fragments 1 to M have together.
pub fn joined_length(x: Group) -> usize
    ensures { result ≡ joined_length x }
{
    let n = x.total.min(16);
    bytes_in(&x.pieces[..n])
}

// How many bytes fragments have together.
fn bytes_in(pieces: &[Piece]) -> usize
    requires { length pieces.now ≤ 16 }
    ensures { result ≡ bytes_in pieces.now }
{
    pieces.iter().map(|p| usize::from(p.len)).sum()
}
