// Document 01, "The datagram": its numbers. Flags, id, salt and ttl; flood hops; a fragment's master id, index and total.
// Each field is read from the part that begins where the last one ended. A reader answers its value with the number of bytes that it took, and
// nothing where its field is not there.
#![tactic(auto)]

ghost use Rattle.std.specs.Prelude.{◌≡◌, option_map};
ghost use Rattle.octets.specs.Field.{num, given};
ghost use Rattle.octets.specs.Reading.{read_as};
ghost use Rattle.layout.specs.Layout.{fragment_if, opening};
ghost use Rattle.datagram_numbers.specs.Found.{opening_held};

use envelope::Fragment;
use layout::Flags;
use octets::Little;

mod numbers;

// Flags, id, salt, ttl.
#[derive(Clone, Copy)]
pub struct Opening {
    pub flags: Flags,
    pub id: u32,
    pub salt: Option<i64>,
    pub ttl: Option<u32>,
}

// A number, where its flag is set.
pub fn read_if<T: Little>(d: &[u8], has: bool) -> Option<(Option<T>, usize)>
    ensures { result ≡ read_as (option_map T.value) ((given has (num T.width)).parse d.now) }
{
    if !has {
        return Some((None, 0));
    }
    let (v, used) = octets::read::<T>(d)?;
    Some((Some(v), used))
}

// Flags, id, salt, ttl.
#[tactic(auto, unfolding(layout::specs::Layout::opening))]
pub fn read_opening(d: &[u8]) -> Option<(Opening, usize)>
    ensures { result ≡ read_as opening_held (opening.parse d.now) }
{
    let (flags, n1) = numbers::read_flags(d)?;
    let d1 = &d[n1..];
    let (id, n2) = numbers::read_id(d1)?;
    let d2 = &d1[n2..];
    let (salt, n3) = read_if::<i64>(d2, flags.salt)?;
    let d3 = &d2[n3..];
    let (ttl, n4) = read_if::<u32>(d3, flags.ttl)?;
    let opening = Opening {
        flags,
        id,
        salt,
        ttl,
    };
    Some((opening, n1 + n2 + n3 + n4))
}

// Master id, index and total, where the flag is set.
pub fn read_fragment(d: &[u8], has: bool) -> Option<(Option<Fragment>, usize)>
    ensures { result ≡ read_as (λ f. f) ((fragment_if has).parse d.now) }
{
    if !has {
        return Some((None, 0));
    }
    let (mid, n1) = numbers::read_id(d)?;
    let d1 = &d[n1..];
    let (index, n2) = octets::read::<u16>(d1)?;
    let d2 = &d1[n2..];
    let (total, n3) = octets::read::<u16>(d2)?;
    let fragment = Fragment { mid, index, total };
    Some((Some(fragment), n1 + n2 + n3))
}
