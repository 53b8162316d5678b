// Document 01, "The datagram": its lists, each behind its count. Flood hops, source route and traversed hops; the headers.
// A reader answers its value with the number of bytes that it took, and nothing where its fields are not there.
#![tactic(auto)]

ghost use Rattle.std.specs.Prelude.{◌≡◌};
ghost use Rattle.octets.specs.Reading.{read_as};
ghost use Rattle.layout.specs.Layout.{way, headers_if};
ghost use Rattle.datagram_lists.specs.Found.{way_held};

use headers::Headers;
use layout::{Flags, Hops};

mod headings;
mod routes;

// Flood hops, source route, traversed hops.
#[derive(Clone, Copy)]
pub struct Way {
    pub flood: Option<u8>,
    pub route: Option<Hops>,
    pub hops: Option<Hops>,
}

// Flood hops, source route, traversed hops.
#[tactic(auto, unfolding(layout::specs::Layout::way))]
pub fn read_way(d: &[u8], flags: Flags) -> Option<(Way, usize)>
    ensures { result ≡ read_as way_held ((way flags).parse d.now) }
{
    let (flood, n1) = datagram_numbers::read_if::<u8>(d, flags.flood)?;
    let d1 = &d[n1..];
    let (route, n2) = routes::read_route(d1, flags.route)?;
    let d2 = &d1[n2..];
    let (hops, n3) = routes::read_route(d2, flags.hops)?;
    Some((Way { flood, route, hops }, n1 + n2 + n3))
}

// The headers, where the flag is set: 1 to 8 of them.
#[tactic(auto, unfolding(layout::specs::Layout::headers))]
pub fn read_headers(d: &[u8], has: bool) -> Option<(Headers, usize)>
    ensures { result ≡ read_as (λ h. h) ((headers_if has).parse d.now) }
{
    if !has {
        return Some((held_texts::no_headers(), 0));
    }
    let (count, n1) = octets::read::<u16>(d)?;
    if count < 1 {
        return None;
    }
    if 8 < count {
        return None;
    }
    let d1 = &d[n1..];
    let (headers, n2) = headings::read_items(d1, usize::from(count))?;
    Some((headers, n1 + n2))
}
