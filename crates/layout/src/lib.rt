// Document 01, "The datagram": what a version 7 datagram carries besides its payload, and the rules that reader and writer share.
// The layout itself is a definition, specs/Layout.antt.
#![tactic(auto)]

ghost use Rattle.std.specs.Prelude.{◌≡◌};
ghost use Rattle.octets.specs.Words.{◌and◌, every};
ghost use Rattle.envelope.specs.Rules.{call_in, if_some};
ghost use Rattle.layout.specs.Rules.{hops_in, valid};
ghost use Rattle.layout.specs.Texts.{no_hops};

use envelope::{CallText, Envelope};

// Source route or traversed hops: the first `count` of the items.
#[derive(Clone, Copy)]
pub struct Hops {
    pub count: usize,
    pub items: [CallText; 16],
}

// The ten flags, bit 0 first: which fields a datagram has.
#[derive(Clone, Copy)]
pub struct Flags {
    pub salt: bool,
    pub ttl: bool,
    pub headers: bool,
    pub originator: bool,
    pub link: bool,
    pub flood: bool,
    pub route: bool,
    pub hops: bool,
    pub fragment: bool,
    pub stream: bool,
}

// A message as a datagram carries it: the fields that a line has too, and those that only a datagram has.
#[derive(Clone, Copy)]
pub struct Datagram {
    pub fields: Envelope,
    pub link: Option<CallText>,
    pub flood: Option<u8>,
    pub route: Option<Hops>,
    pub hops: Option<Hops>,
}

// No hops.
pub fn no_hops() -> Hops
    ensures { result ≡ no_hops }
{
    let none = CallText {
        len: 0,
        bytes: [0u8; 12],
    };
    Hops {
        count: 0,
        items: [none; 16],
    }
}

// Whether each is a callsign.
fn are_calls(items: &[CallText]) -> bool
    ensures { result ≡ every call_in items.now }
{
    items.iter().all(|t| envelope::is_call(*t))
}

// Whether these are hops: at most 16, each a callsign.
#[tactic(auto, unfolding(crate::specs::Rules::hops_in))]
fn are_hops(h: &Hops) -> bool
    ensures { result ≡ hops_in h.now }
{
    if 16 < h.count {
        return false;
    }
    are_calls(&h.items[..h.count])
}

// Whether hops that may be absent are hops where they are there.
fn hops_rule(hops: &Option<Hops>) -> bool
    ensures { result ≡ if_some hops_in hops.now }
{
    hops.as_ref().is_none_or(|h| are_hops(h))
}

// Whether the fields that only a datagram has keep their rules: link source, source route and traversed hops.
pub fn own_rules(m: &Datagram) -> bool
    ensures { result ≡ if_some call_in m.now.link and (if_some hops_in m.now.route and if_some hops_in m.now.hops) }
{
    if !m.link.is_none_or(|t| envelope::is_call(t)) {
        return false;
    }
    if !hops_rule(&m.route) {
        return false;
    }
    hops_rule(&m.hops)
}

// Whether the message is one that a datagram may carry.
#[tactic(auto, unfolding(crate::specs::Rules::valid))]
pub fn is_valid(m: &Datagram) -> bool
    ensures { result ≡ valid m.now }
{
    envelope::is_valid(m.fields) && own_rules(m)
}
