// Lists one datagram: the bytes of standard input, as lines on standard output.
#![tactic(auto)]

use std::io;

fn main(rt: HostRuntime) -> io::Result<()> {
    // One byte more than the longest datagram, so that a longer input is told as too long.
    let mut datagram = [0u8; 1233];
    let n = input::read(&mut rt.stdin(), &mut datagram)?;
    let mut text = [0u8; 512];
    let Ok(k) = listing::lines(&datagram[..n], &mut text) else {
        return Ok(());
    };
    rt.write_all(&text[..k])
}
