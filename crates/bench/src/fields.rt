// The fields of a line and of a datagram: ` key=value` for each that is there.
use crate::say;
use node::{CallText, DatagramRead, Envelope, Header, Headers, Hops, Line};
use std::io;

// FIELDS of a line.
pub(crate) fn say_line(out: &impl Print, m: &Line) -> io::Result<()> {
    let f = &m.fields;
    print!(out; " id={:07x} len={}", f.id, m.len)?;
    say::salt(out, f.salt)?;
    say_ttl(out, f.ttl)?;
    say_call(out, " src=", &f.src)?;
    say_groups(out, f)?;
    say::front(out, " dst=", &f.dst.bytes, f.dst.len)
}

// `ok` and the FIELDS of a datagram, with where its payload stands.
pub(crate) fn say_datagram(out: &impl Print, read: &DatagramRead) -> io::Result<()> {
    let m = &read.message;
    let f = &m.fields;
    print!(out; "ok id={:07x}", f.id)?;
    say::salt(out, f.salt)?;
    say_ttl(out, f.ttl)?;
    say::front(out, " dst=", &f.dst.bytes, f.dst.len)?;
    say_call(out, " src=", &f.src)?;
    say_call(out, " link=", &m.link)?;
    if let Some(flood) = m.flood {
        print!(out; " flood={flood}")?;
    }
    say_hops(out, " route=", &m.route)?;
    say_hops(out, " hops=", &m.hops)?;
    say_groups(out, f)?;
    print!(out; " payload={}+{}", read.payload_at, read.payload_len)
}

fn say_ttl(out: &impl Print, ttl: Option<u32>) -> io::Result<()> {
    match ttl {
        Some(ttl) => print!(out; " ttl={ttl}"),
        None => Ok(()),
    }
}

fn say_call(out: &impl Print, key: &str, call: &Option<CallText>) -> io::Result<()> {
    match call {
        Some(t) => say::front(out, key, &t.bytes, t.len),
        None => Ok(()),
    }
}

// The fragment, the stream and the headers, which follow each other in a line as in a datagram.
fn say_groups(out: &impl Print, f: &Envelope) -> io::Result<()> {
    if let Some(fragment) = &f.fragment {
        print!(out;
            " mid={:07x} frag={}/{}",
            fragment.mid, fragment.index, fragment.total
        )?;
    }
    if let Some(stream) = &f.stream {
        say::front(out, " sid=", &stream.sid.bytes, stream.sid.len)?;
        print!(out; " sn={} gt={}", stream.sn, stream.gt)?;
    }
    say_headers(out, &f.headers)
}

fn say_headers(out: &impl Print, h: &Headers) -> io::Result<()> {
    for header in h.items.iter().take(h.count) {
        say_header(out, header)?;
    }
    Ok(())
}

fn say_header(out: &impl Print, h: &Header) -> io::Result<()> {
    say::front(out, " +", &h.key, h.key_len)?;
    say::front(out, "=", &h.value, h.value_len)
}

// A list of hops; `-` where it is empty. The key stands before the first hop, a comma before every other.
fn say_hops(out: &impl Print, key: &str, hops: &Option<Hops>) -> io::Result<()> {
    let Some(h) = hops else {
        return Ok(());
    };
    if h.count == 0 {
        return print!(out; "{key}-");
    }
    let mut before = key;
    for hop in h.items.iter().take(h.count) {
        say::front(out, before, &hop.bytes, hop.len)?;
        before = ",";
    }
    Ok(())
}
