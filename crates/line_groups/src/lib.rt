// The values of a line's reserved keys, in groups that stand or fall together. Each reader is given the group's values, those that may be
// missing among them; it answers what they say, and nothing where the group's rules do not hold.
#![tactic(auto)]

ghost use Rattle.std.specs.Prelude.{◌≡◌};
ghost use Rattle.std.specs.Option.{option_map};
ghost use Rattle.line_groups.specs.Answers.{payload_by, singles_by, fragment_by, stream_by};

use envelope::{Fragment, Stream};

// `len`, and whether `fmt` is `d`.
#[derive(Clone, Copy)]
pub struct Payload {
    pub len: u32,
    pub deflated: bool,
}

// `s`, `ttl` and `chk`.
#[derive(Clone, Copy)]
pub struct Singles {
    pub salt: Option<i64>,
    pub ttl: Option<u32>,
    pub chk: Option<u16>,
}

// `len`, `fmt` and `clen`.
#[tactic(auto, unfolding(crate::specs::Answers::payload_by))]
pub fn read_payload(len: Option<&[u8]>, fmt: Option<&[u8]>, clen: Option<&[u8]>) -> Option<Payload>
    ensures { result ≡ payload_by (option_map (λ v. v.now) len.entry) (option_map (λ v. v.now) fmt.entry) (option_map (λ v. v.now) clen.entry) }
{
    let len = text::read_number(len?, 2147483647)?;
    let fmt = fmt?;
    let deflated = fmt == b"d".as_slice();
    if !line_words::format_rule(fmt == b"p".as_slice(), deflated, clen.is_some()) {
        return None;
    }
    if let Some(clen) = clen {
        text::read_number(clen, 2147483647)?;
    }
    Some(Payload {
        len: len as u32,
        deflated,
    })
}

// `s`, `ttl` and `chk`.
#[tactic(auto, unfolding(crate::specs::Answers::singles_by))]
pub fn read_singles(salt: Option<&[u8]>, ttl: Option<&[u8]>, chk: Option<&[u8]>) -> Option<Singles>
    ensures { result ≡ singles_by (option_map (λ v. v.now) salt.entry) (option_map (λ v. v.now) ttl.entry) (option_map (λ v. v.now) chk.entry) }
{
    let salt = match salt {
        Some(v) => Some(text::read_signed(v)?),
        None => None,
    };
    let ttl = match ttl {
        Some(v) => Some(text::read_number(v, 2147483647)? as u32),
        None => None,
    };
    let chk = match chk {
        Some(v) => Some(text::read_chk(v)?),
        None => None,
    };
    Some(Singles { salt, ttl, chk })
}

// `mid` and `frag`, both or neither.
#[tactic(auto, unfolding(crate::specs::Answers::fragment_by, line_values::specs::Values::part_of))]
pub fn read_fragment(mid: Option<&[u8]>, frag: Option<&[u8]>) -> Option<Option<Fragment>>
    ensures { result ≡ fragment_by (option_map (λ v. v.now) mid.entry) (option_map (λ v. v.now) frag.entry) }
{
    if !line_words::both_or_neither(mid.is_some(), frag.is_some()) {
        return None;
    }
    let Some(mid) = mid else {
        return Some(None);
    };
    let mid = text::read_id(mid)?;
    let part = line_values::read_part(frag?)?;
    Some(Some(Fragment {
        mid,
        index: part.index,
        total: part.total,
    }))
}

// `sid`, `sn` and `gt`, all or none.
#[tactic(auto, unfolding(crate::specs::Answers::stream_by))]
pub fn read_stream(
    sid: Option<&[u8]>,
    sn: Option<&[u8]>,
    gt: Option<&[u8]>,
) -> Option<Option<Stream>>
    ensures { result ≡ stream_by (option_map (λ v. v.now) sid.entry) (option_map (λ v. v.now) sn.entry) (option_map (λ v. v.now) gt.entry) }
{
    if !line_words::all_or_none(sid.is_some(), sn.is_some(), gt.is_some()) {
        return None;
    }
    let Some(sid) = sid else {
        return Some(None);
    };
    let n = text::read_number(sn?, 4294967295)?;
    let m = text::read_number(gt?, 4294967295)?;
    Some(Some(Stream {
        sid: envelope::stream_text(sid),
        sn: n as u32,
        gt: m as u32,
    }))
}
