// Flags and ids.
ghost use Rattle.std.specs.Prelude.{◌≡◌, ◌<◌, ◌/◌, ◌%◌};
ghost use Rattle.octets.specs.Words.{◌=?◌};
ghost use Rattle.octets.specs.Reading.{read_as};
ghost use Rattle.layout.specs.Layout.{flags, flags_of, hex_id};

use layout::Flags;

// Whether the bit of this weight is set.
fn bit(v: u16, weight: u16) -> bool
    requires { 0 < weight }
    ensures { result ≡ (v / weight % 2 =? 1) }
{
    v / weight % 2 == 1
}

#[tactic(auto, unfolding(layout::specs::Layout::flags_of, layout::specs::Layout::bit))]
fn flags_of(v: u16) -> Flags
    ensures { result ≡ flags_of v }
{
    Flags {
        salt: bit(v, 1),
        ttl: bit(v, 2),
        headers: bit(v, 4),
        originator: bit(v, 8),
        link: bit(v, 16),
        flood: bit(v, 32),
        route: bit(v, 64),
        hops: bit(v, 128),
        fragment: bit(v, 256),
        stream: bit(v, 512),
    }
}

// The flags; bits 10 to 15 must be clear.
pub(crate) fn read_flags(d: &[u8]) -> Option<(Flags, usize)>
    ensures { result ≡ read_as (λ f. f) (flags.parse d.now) }
{
    let (v, used) = octets::read::<u16>(d)?;
    if v < 1024 {
        return Some((flags_of(v), used));
    }
    None
}

// An id, or a master id: 7 of `0-9a-f`.
#[tactic(auto, unfolding(layout::specs::Layout::hex_id))]
pub(crate) fn read_id(d: &[u8]) -> Option<(u32, usize)>
    ensures { result ≡ read_as (λ v. v) (hex_id.parse d.now) }
{
    let id = text::read_id(d.get(..7)?)?;
    Some((id, 7))
}
