// Document 01, "Streams": the 32 slots of a table together: their rules (40), and what one pass over them finds.
#![tactic(auto)]

ghost use Rattle.std.specs.Prelude.{◌≡◌};
ghost use Rattle.slot_rules.specs.Slots.{test_of};

use keys::Key;
use slots::Slot;

// What one pass over slots that keep their rules finds: the place of the first that has a key and of the first that is free, and how many
// are open.
#[derive(Clone, Copy)]
pub struct Ruled {
    pub found: Option<usize>,
    pub free: Option<usize>,
    pub rows: usize,
}

// Tests each slot, then each pair of open slots whose marks are equal: unlike marks are unlike keys. Nothing is found in slots that break
// their rules. One function, since each one that is handed the slots copies them.
pub fn test(slots: [Slot; 32], key: Key) -> Option<Ruled>
    ensures { result ≡ test_of slots key }
{
    let mut marks = [0u32; 32];
    let mut r = Ruled {
        found: None,
        free: None,
        rows: 0,
    };
    for i in 0..32 {
        if !slots[i].is_open {
            if !slots[i].free_keeps_rules() {
                return None;
            }
            r.free = r.free.or(Some(i));
            continue;
        }
        let x = slots[i];
        if !x.open_keeps_rules() {
            return None;
        }
        marks[i] = keys::mark(x.key);
        if x.has_key(key) {
            r.found = r.found.or(Some(i));
        }
        r.rows += 1;
    }
    // Fewer than two open slots are no pair.
    if r.rows < 2 {
        return Some(r);
    }
    for k in 0..32 {
        if !slots[k].is_open {
            continue;
        }
        for j in k + 1..32 {
            if marks[j] == marks[k] && slots[k].is_alike(slots[j]) {
                return None;
            }
        }
    }
    Some(r)
}
