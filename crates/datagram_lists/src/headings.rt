// Headers, put one after the other into one array.
ghost use Rattle.std.specs.Prelude.{◌≡◌, ◌≤◌};
ghost use Rattle.octets.specs.Reading.{read_as};
ghost use Rattle.held_texts.specs.Texts.{no_headers, with_header};
ghost use Rattle.layout.specs.Layout.{header};
ghost use Rattle.datagram_lists.specs.Found.{list_from};

use headers::Headers;

// As many headers, each from the part behind the last; the first that is not there ends the reading.
pub(crate) fn read_items(d: &[u8], count: usize) -> Option<(Headers, usize)>
    requires { count ≤ 8 }
    ensures { result ≡ read_as (λ h. h) (list_from header with_header count no_headers d.now) }
{
    let mut headers = held_texts::no_headers();
    let mut at = 0;
    for i in 0..count {
        let (header, used) = datagram_texts::read_header(&d[at..])?;
        headers.items[i] = header;
        at += used;
    }
    headers.count = count;
    Some((headers, at))
}
