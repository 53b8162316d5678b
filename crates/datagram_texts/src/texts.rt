// Texts behind their lengths.
ghost use Rattle.std.specs.Prelude.{◌≡◌, ◌≤◌, length};
ghost use Rattle.octets.specs.Reading.{read_as};
ghost use Rattle.layout.specs.Layout.{text, call_if, address, stream_name};
ghost use Rattle.datagram_texts.specs.Found.{seen, text_behind};

use envelope::{AddressText, CallText, StreamText};

// The `len` bytes that follow the first k, which said their number; no more than `most`.
fn behind(d: &[u8], k: usize, len: usize, most: usize) -> Option<(&[u8], usize)>
    requires { k ≤ length d.now }
    ensures { seen result ≡ read_as (λ l. l) (text_behind k len most d.now) }
{
    if most < len {
        return None;
    }
    if d.len() - k < len {
        return None;
    }
    Some((&d[k..k + len], k + len))
}

// A text behind a length of one byte.
#[tactic(auto, unfolding(layout::specs::Layout::text))]
pub(crate) fn text8(d: &[u8], most: usize) -> Option<(&[u8], usize)>
    ensures { seen result ≡ read_as (λ l. l) ((text 1 most).parse d.now) }
{
    let (len, k) = octets::read::<u8>(d)?;
    behind(d, k, usize::from(len), most)
}

// A text behind a length of two bytes. The twin stays: what a length of any type is as a `usize` no contract of a trait says, and a trait for two
// calls would be longer than both.
#[tactic(auto, unfolding(layout::specs::Layout::text))]
pub(crate) fn text16(d: &[u8], most: usize) -> Option<(&[u8], usize)>
    ensures { seen result ≡ read_as (λ l. l) ((text 2 most).parse d.now) }
{
    let (len, k) = octets::read::<u16>(d)?;
    behind(d, k, usize::from(len), most)
}

// The originator or the link source, where its flag is set.
#[tactic(auto, unfolding(layout::specs::Layout::call))]
pub(crate) fn read_call(d: &[u8], has: bool) -> Option<(Option<CallText>, usize)>
    ensures { result ≡ read_as (λ t. t) ((call_if has).parse d.now) }
{
    if !has {
        return Some((None, 0));
    }
    let (s, used) = text16(d, 12)?;
    Some((Some(envelope::call_text(s)), used))
}

// The destination.
#[tactic(auto, unfolding(layout::specs::Layout::address))]
pub(crate) fn read_address(d: &[u8]) -> Option<(AddressText, usize)>
    ensures { result ≡ read_as (λ t. t) (address.parse d.now) }
{
    let (s, used) = text16(d, 45)?;
    Some((envelope::address_text(s), used))
}

// The stream id.
#[tactic(auto, unfolding(layout::specs::Layout::stream_name))]
pub(crate) fn read_name(d: &[u8]) -> Option<(StreamText, usize)>
    ensures { result ≡ read_as (λ t. t) (stream_name.parse d.now) }
{
    let (s, used) = text8(d, 255)?;
    Some((envelope::stream_text(s), used))
}
