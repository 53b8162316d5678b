// Document 01, "Names and fields": callsigns and destinations.
#![tactic(auto)]

ghost use Rattle.std.specs.Prelude.{◌≡◌};
ghost use Rattle.callsigns.specs.Callsign.{callsign, callsign_of, same_call};
ghost use Rattle.callsigns.specs.Destination.{destination, destination_of};

mod parts;

// A callsign, taken apart: how many bytes its base has, and its SSID, 0 where none is written.
#[derive(Clone, Copy)]
pub struct Call {
    pub base: usize,
    pub ssid: u8,
}

// A destination, taken apart: how many bytes its app has, and the callsign behind the `@`.
#[derive(Clone, Copy)]
pub struct Address {
    pub app: usize,
    pub call: Call,
}

// Reads a whole text as a callsign.
pub fn read_callsign(s: &[u8]) -> Option<Call>
    ensures { result ≡ callsign_of s.now }
{
    let base = parts::call_run(s);
    if base < 1 {
        return None;
    }
    if 9 < base {
        return None;
    }
    let ssid = parts::read_suffix(&s[base..])?;
    Some(Call { base, ssid })
}

// Whether two callsigns are equal.
#[tactic(auto, unfolding(crate::specs::Callsign::same_call))]
pub fn same_call(a: &[u8], b: &[u8]) -> bool
    ensures { result ≡ same_call a.now b.now }
{
    octets::equal(a, b)
}

// Reads a whole text as a destination.
pub fn read_destination(s: &[u8]) -> Option<Address>
    ensures { result ≡ destination_of s.now }
{
    let app = parts::app_run(s);
    if app < 1 {
        return None;
    }
    if 32 < app {
        return None;
    }
    let [b'@', rest @ ..] = &s[app..] else {
        return None;
    };
    let call = read_callsign(rest)?;
    Some(Address { app, call })
}

// Whether a whole text is a callsign.
#[tactic(auto, unfolding(crate::specs::Callsign::callsign_of))]
pub fn is_callsign(s: &[u8]) -> bool
    ensures { result ≡ callsign s.now }
{
    read_callsign(s).is_some()
}

// Whether a whole text is a destination.
#[tactic(auto, unfolding(crate::specs::Destination::destination_of))]
pub fn is_destination(s: &[u8]) -> bool
    ensures { result ≡ destination s.now }
{
    read_destination(s).is_some()
}
