// Hops: a list is one hop followed by a shorter list.
ghost use Rattle.std.specs.Prelude.{◌≡◌, ◌+◌, ◌≤◌};
ghost use Rattle.octets.specs.Reading.{read_as};
ghost use Rattle.layout.specs.Layout.{hops_if};
ghost use Rattle.datagram_lists.specs.Found.{hops_from};

use layout::Hops;

// As many hops, of which the first has the place `at`: one hop, and the shorter list behind it. The shorter list's answer is changed where it
// stands and handed on: taken out and put together again, its array would be copied at each hop.
fn read_hops(d: &[u8], count: usize, at: usize) -> Option<(Hops, usize)>
    requires { at + count ≤ 16 }
    ensures { result ≡ read_as (λ h. h) (hops_from count at d.now) }
{
    if count == 0 {
        let mut hops = layout::no_hops();
        hops.count = at;
        return Some((hops, 0));
    }
    let (hop, n1) = datagram_texts::read_hop(d)?;
    let d1 = &d[n1..];
    let mut found = read_hops(d1, count - 1, at + 1);
    if let Some((hops, used)) = &mut found {
        hops.items[at] = hop;
        *used += n1;
    }
    found
}

// The source route or the traversed hops, where the flag is set: 0 to 16 hops.
#[tactic(auto, unfolding(layout::specs::Layout::hops))]
pub(crate) fn read_route(d: &[u8], has: bool) -> Option<(Option<Hops>, usize)>
    ensures { result ≡ read_as (λ h. h) ((hops_if has).parse d.now) }
{
    if !has {
        return Some((None, 0));
    }
    let (count, n1) = octets::read::<u8>(d)?;
    if 16 < count {
        return None;
    }
    let d1 = &d[n1..];
    let (hops, n2) = read_hops(d1, usize::from(count), 0)?;
    Some((Some(hops), n1 + n2))
}
