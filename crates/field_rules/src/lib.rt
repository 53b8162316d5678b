// Document 01, "Names and fields": the rules of the numbers that a line and a datagram share. A field that may be absent keeps its rule where
// it is there.
#![tactic(auto)]

ghost use Rattle.std.specs.Prelude.{◌≡◌};
ghost use Rattle.field_rules.specs.Rules.{id_in, ttl_in, numbers_in, if_some};

// An id, or a master id.
#[tactic(auto, unfolding(crate::specs::Rules::id_in))]
pub fn id_rule(id: u32) -> bool
    ensures { result ≡ id_in id }
{
    id < 268435456
}

#[tactic(auto, unfolding(crate::specs::Rules::ttl_in))]
pub fn ttl_rule(ttl: Option<u32>) -> bool
    ensures { result ≡ if_some ttl_in ttl }
{
    let Some(ttl) = ttl else {
        return true;
    };
    if ttl < 1 {
        return false;
    }
    ttl <= 2147483647
}

// A fragment's master id, and N of M.
#[tactic(auto, unfolding(crate::specs::Rules::fragment_in))]
pub fn fragment_rule(fragment: Option<(u32, u16, u16)>) -> bool
    ensures { result ≡ if_some numbers_in fragment }
{
    let Some((mid, index, total)) = fragment else {
        return true;
    };
    if !id_rule(mid) {
        return false;
    }
    if total < 2 {
        return false;
    }
    if index < 1 {
        return false;
    }
    index <= total
}
