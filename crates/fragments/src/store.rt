// The fragments' bytes in the store.
ghost use Rattle.std.specs.Prelude.{◌≡◌, true, ◌<◌, ◌≤◌, length};
ghost use Rattle.octets.specs.Bytes.{front};
ghost use Rattle.groups.specs.Groups.{keeps_pieces, joined_length, store_size};
ghost use Rattle.fragments.specs.Store.{joined};

use groups::Group;

// Writes the fragments 1 to M of group g, which is x, to the front of `out`.
pub(crate) fn join(x: Group, g: usize, store: &[u8], out: &mut [u8])
    requires { (g < 4) × (length store.now ≡ store_size) × (keeps_pieces x.total 0 x.pieces ≡ true) × (joined_length x ≤ length out.old) }
    ensures { out.new ≡ front (joined store.now g x) out.old }
{
    let n = x.total.min(16);
    let mut at: usize = 0;
    for (i, p) in x.pieces[..n].iter().enumerate() {
        let len = usize::from(p.len);
        let from = (16 * g + i) * groups::PLACE;
        octets::copy_at(&store[from..from + len], out, at);
        at += len;
    }
}
