// Document 01, "Streams": a slot of the table, which is an open row with its key, or a free one, all zero.
#![tactic(auto)]

ghost use Rattle.std.specs.Prelude.{◌≡◌};
ghost use Rattle.octets.specs.Words.{◌and◌};
ghost use Rattle.slots.specs.Slot.{free_slot, keeps_open, keeps_free, has_key, slot_for};

use keys::Key;
use rows::Row;

// No Option of a key and a row: a free slot that is not all zero can be handed in, and is refused with 40 (`keeps_free`).
#[derive(Clone, Copy)]
pub struct Slot {
    pub is_open: bool,
    pub key: Key,
    pub row: Row,
}

impl Slot {
    // A free row: all zero.
    pub fn free() -> Slot
        ensures { result ≡ free_slot }
    {
        Slot {
            is_open: false,
            key: keys::none(),
            row: Row::none(),
        }
    }

    // Whether an open slot keeps its rules (40). An open slot and a free one have a function each, since what is tested is copied: of a free
    // slot, which is most of them, nothing is then copied.
    pub fn open_keeps_rules(self) -> bool
        ensures { result ≡ keeps_open self }
    {
        keys::keeps_rules(self.key) && self.row.keeps_rules()
    }

    // Whether a free slot keeps its rules (40).
    pub fn free_keeps_rules(self) -> bool
        ensures { result ≡ keeps_free self }
    {
        keys::is_none(self.key) && self.row.is_none()
    }

    // Whether the slot is open and has the key.
    #[tactic(auto, unfolding(crate::specs::Slot::has_key))]
    pub fn has_key(self, key: Key) -> bool
        ensures { result ≡ has_key key self }
    {
        self.is_open && keys::same(key, self.key)
    }

    // Whether the slot is open, and another has its key.
    pub fn is_alike(self, other: Slot) -> bool
        ensures { result ≡ (self.is_open and has_key self.key other) }
    {
        self.is_open && other.has_key(self.key)
    }

    // The slot itself where it is open, else a new row of the key.
    pub fn for_key(self, key: Key) -> Slot
        ensures { result ≡ slot_for key self }
    {
        if self.is_open {
            return self;
        }
        Slot {
            is_open: true,
            key,
            row: Row::new(),
        }
    }
}
