// The bench: reads a script from standard input, makes the call that each command names, and writes its answer.
// A line is parsed to a command (command, arguments), and the area that the command belongs to obeys it and says its answer (say).
// A read or a write that fails ends the run with its error.
#![tactic(auto)]

mod arguments;
mod buffers;
mod command;
mod fields;
mod fragment_calls;
mod messages;
mod say;
mod script;
mod sessions;
mod stream_calls;

use std::io;

fn main(rt: HostRuntime) -> io::Result<()> {
    let mut line = [0u8; script::LINE];
    let mut memory = [0u8; buffers::MEMORY];
    let mut replies = [0u8; buffers::REPLY];
    script::run(&rt, &mut line, &mut memory, &mut replies)
}
