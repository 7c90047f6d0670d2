// Replays the traces of a script, on both sides of each boundary, and shows one line for each: its name, the answers, every line of the record
// that is not 0, and how many lines there were. Records events and heads too, with room and without, and at the end a morning, which it then
// replays. The calls of the script are `replay`, `event` and `head`.
#![tactic(auto)]

use std::io;

mod recording;
mod replaying;

// One line of the script.
fn run(rt: &impl Print, line: &[u8]) -> io::Result<()> {
    script::name(rt, line)?;
    match script::call(line) {
        b'r' => replaying::traced(rt, line)?,
        b'e' => recording::events(rt, line)?,
        b'h' => recording::heads(rt, line)?,
        _ => (),
    }
    rt.write_all(b"\n")
}

fn main(rt: HostRuntime) -> io::Result<()> {
    let mut text = [0u8; 16384];
    let n = input::read(&mut rt.stdin(), &mut text)?;
    for line in script::lines(&text[..n]) {
        run(&rt, line)?;
    }
    recording::recorded(&rt)
}
