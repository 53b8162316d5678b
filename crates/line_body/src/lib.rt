// The body of a line that is written, the bytes before the space that precedes `chk=`.
#![tactic(auto)]

ghost use Rattle.std.specs.Prelude.{◌≡◌};
ghost use Rattle.line.specs.Writing.{body_of};
ghost use Rattle.line_draft.specs.Drafts.{added, Adds};
ghost use Rattle.line_body.specs.Held.{body_held};

use line::Line;
use line_draft::Draft;

mod parts;

// The writer's order: `len`, `fmt`, `s`, `ttl`, `src`, `mid`, `frag`, `sid`, `sn`, `gt`, the headers, `dst`.
fn put_body(line: &mut Draft, m: &Line)
    ensures { Adds (added (body_of m.now)) line.old.bytes line.old.len line.new.len line.new.bytes }
{
    line.put(b"ihave ");
    line.put_id(m.fields.id);
    parts::number(line, b" len=", u64::from(m.len));
    line.put(b" fmt=p");
    parts::salt(line, m.fields.salt);
    parts::ttl(line, m.fields.ttl);
    parts::src(line, m.fields.src);
    parts::fragment(line, m.fields.fragment);
    parts::stream(line, m.fields.stream);
    parts::headers(line, m.fields.headers);
    parts::dst(line, m.fields.dst);
}

// The body of a message's line: the first `len` bytes, zero past them; blank, with a length of 513, where it is too long for a line.
pub fn print_body(m: Line) -> Draft
    ensures { result ≡ body_held m }
{
    let mut line = Draft::new();
    put_body(&mut line, &m);
    if 512 < line.len {
        return Draft {
            bytes: [0u8; 512],
            len: line_draft::FULL,
        };
    }
    line
}
