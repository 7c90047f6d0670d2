// Replays a counter's morning: the trace of standard input, its answers and the record as lines on standard output.
#![tactic(auto)]

use std::io;

fn main(rt: HostRuntime) -> io::Result<()> {
    // One byte more than the longest trace, so that a longer input is told as too long.
    let mut trace = [0u8; replayer::LONGEST_TRACE + 1];
    let n = input::read(&mut rt.stdin(), &mut trace)?;
    let mut text = [0u8; replayer::ROOM];
    let Ok(k) = replayer::replay(&trace[..n], &mut text) else {
        return Ok(());
    };
    rt.write_all(&text[..k])
}
