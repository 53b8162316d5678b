// The rule of each field by itself; one that may be absent keeps it where it is there.
ghost use Rattle.std.specs.Prelude.{◌≡◌};
ghost use Rattle.envelope.specs.Rules.{call_in, fragment_good, stream_good, address_in, if_some};

use crate::{AddressText, CallText, Fragment, Stream};

pub(crate) fn src_rule(src: Option<CallText>) -> bool
    ensures { result ≡ if_some call_in src }
{
    src.is_none_or(|t| crate::is_call(t))
}

pub(crate) fn fragment_rule(fragment: Option<Fragment>) -> bool
    ensures { result ≡ if_some fragment_good fragment }
{
    field_rules::fragment_rule(fragment.map(|f| (f.mid, f.index, f.total)))
}

#[tactic(auto, unfolding(crate::specs::Rules::stream_in))]
pub(crate) fn stream_rule(stream: Option<Stream>) -> bool
    ensures { result ≡ if_some stream_good stream }
{
    let Some(Stream { sid, .. }) = stream else {
        return true;
    };
    sid.len <= 255 && names::is_stream_id(&sid.bytes[..sid.len])
}

#[tactic(auto, unfolding(crate::specs::Rules::address_in))]
pub(crate) fn dst_rule(dst: AddressText) -> bool
    ensures { result ≡ address_in dst }
{
    dst.len <= 45 && callsigns::is_destination(&dst.bytes[..dst.len])
}
