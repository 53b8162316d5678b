// The commands on the fragment groups and their store: `fragment`, `collect` and `sweep`.
use crate::arguments::LONGEST_NAME;
use crate::buffers::{self, ROOM};
use crate::command::{Command, Fragment, Group};
use crate::say;
use node::Groups;
use std::io;

pub(crate) fn obey(
    out: &impl Print,
    command: Command,
    groups: &mut Groups,
    store: &mut [u8],
) -> io::Result<()> {
    match command {
        Command::Fragment(group, fragment) => add(out, group, fragment, groups, store),
        Command::Collect(group, len) => collect(out, group, len, groups, store),
        Command::Sweep(time) => {
            let swept = node::sweep_groups(*groups, time);
            *groups = swept.groups;
            match swept.answer {
                Ok(()) => print!(out; "swept"),
                Err(refusal) => say::refused(out, refusal),
            }
        }
        _ => Ok(()),
    }
}

fn add(
    out: &impl Print,
    group: Group,
    fragment: Fragment,
    groups: &mut Groups,
    store: &mut [u8],
) -> io::Result<()> {
    let mut name = [0u8; LONGEST_NAME];
    let mut room = [0u8; ROOM];
    let Fragment {
        number,
        total,
        time,
        bytes,
    } = fragment;
    let served = node::add_fragment(
        *groups,
        store,
        group.originator.map(|o| o.decoded(&mut name)),
        group.master,
        number,
        total,
        bytes.decoded(&mut room),
        time,
    );
    *groups = served.groups;
    match served.answer {
        Ok(_) => print!(out; "accepted"),
        Err(refusal) => say::refused(out, refusal),
    }
}

// Into `len` lent bytes.
fn collect(
    out: &impl Print,
    group: Group,
    len: usize,
    groups: &mut Groups,
    store: &[u8],
) -> io::Result<()> {
    let mut name = [0u8; LONGEST_NAME];
    let mut room = [0u8; ROOM];
    let served = node::collect_group(
        *groups,
        store,
        group.originator.map(|o| o.decoded(&mut name)),
        group.master,
        buffers::first(&mut room, len),
    );
    *groups = served.groups;
    match served.answer {
        Ok(collected) => say::front(out, "joined ", &room, collected.len),
        Err(refusal) => say::refused(out, refusal),
    }
}
