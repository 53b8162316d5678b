// The tokens of a line that is written. Each is put behind the last; those of a field that is not there are none.
ghost use Rattle.std.specs.Prelude.{[], ◌∷◌};
ghost use Rattle.std.specs.Option.{option_map};
ghost use Rattle.text.specs.Decimal.{decimal, signed_decimal};
ghost use Rattle.names.specs.Reserved.{key_s, key_dst, key_ttl, key_src, key_mid, key_frag, key_sid, key_sn, key_gt};
ghost use Rattle.envelope.specs.Rules.{call_bytes, address_bytes};
ghost use Rattle.tokens.specs.Tokens.{token};
ghost use Rattle.line.specs.Writing.{choice, chosen, mid_text, part_text, sid_text, sn_text, gt_text, header_token, header_tokens};
ghost use Rattle.line_draft.specs.Drafts.{Adds};
ghost use Rattle.line_body.specs.Steps.{add_pair, add_tokens};

use envelope::{AddressText, CallText, Fragment, Stream};
use headers::{Header, Headers};
use line_draft::Draft;

// ---- a key and its value; the key has its space and its `=`

fn text(line: &mut Draft, key: &[u8], value: &[u8])
    ensures { Adds (add_pair key.now value.now) line.old.bytes line.old.len line.new.len line.new.bytes }
{
    line.put(key);
    line.put(value);
}

pub(crate) fn number(line: &mut Draft, key: &[u8], v: u64)
    ensures { Adds (add_pair key.now (decimal v)) line.old.bytes line.old.len line.new.len line.new.bytes }
{
    line.put(key);
    line.put_number(v);
}

// ---- the tokens

pub(crate) fn salt(line: &mut Draft, salt: Option<i64>)
    ensures { Adds (add_tokens (chosen (choice key_s (option_map signed_decimal salt) ∷ []))) line.old.bytes line.old.len line.new.len line.new.bytes }
{
    let Some(salt) = salt else {
        return;
    };
    line.put(b" s=");
    line.put_signed(salt);
}

pub(crate) fn ttl(line: &mut Draft, ttl: Option<u32>)
    ensures { Adds (add_tokens (chosen (choice key_ttl (option_map decimal ttl) ∷ []))) line.old.bytes line.old.len line.new.len line.new.bytes }
{
    let Some(ttl) = ttl else {
        return;
    };
    number(line, b" ttl=", u64::from(ttl));
}

pub(crate) fn src(line: &mut Draft, src: Option<CallText>)
    ensures { Adds (add_tokens (chosen (choice key_src (option_map call_bytes src) ∷ []))) line.old.bytes line.old.len line.new.len line.new.bytes }
{
    let Some(t) = src else {
        return;
    };
    text(line, b" src=", lengths::part(&t.bytes, t.len));
}

pub(crate) fn fragment(line: &mut Draft, fragment: Option<Fragment>)
    ensures { Adds (add_tokens (chosen (choice key_mid (option_map mid_text fragment) ∷ choice key_frag (option_map part_text fragment) ∷ []))) line.old.bytes line.old.len line.new.len line.new.bytes }
{
    let Some(f) = fragment else {
        return;
    };
    line.put(b" mid=");
    line.put_id(f.mid);
    number(line, b" frag=", u64::from(f.index));
    number(line, b"/", u64::from(f.total));
}

pub(crate) fn stream(line: &mut Draft, stream: Option<Stream>)
    ensures { Adds (add_tokens (chosen (choice key_sid (option_map sid_text stream) ∷ choice key_sn (option_map sn_text stream) ∷ choice key_gt (option_map gt_text stream) ∷ []))) line.old.bytes line.old.len line.new.len line.new.bytes }
{
    let Some(s) = stream else {
        return;
    };
    text(line, b" sid=", lengths::part(&s.sid.bytes, s.sid.len));
    number(line, b" sn=", u64::from(s.sn));
    number(line, b" gt=", u64::from(s.gt));
}

fn header(line: &mut Draft, h: Header)
    ensures { Adds (add_tokens (header_token h ∷ [])) line.old.bytes line.old.len line.new.len line.new.bytes }
{
    text(line, b" ", lengths::part(&h.key, h.key_len));
    text(line, b"=", lengths::part(&h.value, h.value_len));
}

pub(crate) fn headers(line: &mut Draft, h: Headers)
    ensures { Adds (add_tokens (header_tokens h)) line.old.bytes line.old.len line.new.len line.new.bytes }
{
    for i in 0..h.count.min(8) {
        header(line, h.items[i]);
    }
}

pub(crate) fn dst(line: &mut Draft, t: AddressText)
    ensures { Adds (add_tokens (token key_dst (address_bytes t) ∷ [])) line.old.bytes line.old.len line.new.len line.new.bytes }
{
    text(line, b" dst=", lengths::part(&t.bytes, t.len));
}
