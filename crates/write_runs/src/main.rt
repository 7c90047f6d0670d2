// Writes the values of a script, on both sides of the boundary of each refusal, and shows one line for each: its name, what writing answers, the
// bytes of an accepted datagram, and how many other bytes of the lent buffer were touched.
#![tactic(auto)]

use std::io;

// Writes a packet of these bytes into this buffer, and shows the answer.
fn show(
    rt: &impl Print,
    line: &[u8],
    additions: &[u8],
    coded: &[u8],
    block: &[u8],
    out: &mut [u8],
) -> io::Result<()> {
    showing::fill(out);
    let w = writer::write(script_packets::values(line), additions, coded, block, out);
    showing::answered(rt, w, out)?;
    rt.write_all(b"\n")
}

// One line of the script.
fn run(rt: &impl Print, line: &[u8]) -> io::Result<()> {
    let mut additions = [0u8; 16];
    let mut coded = [0u8; 128];
    let mut block = [0u8; 1226];
    let mut out = [0u8; 1233];
    let a = script::bytes(line, b"additions=", &mut additions);
    let c = script::bytes(line, b"coded=", &mut coded);
    let b = script::bytes(line, b"block=", &mut block);
    script::name(rt, line)?;
    show(
        rt,
        line,
        &additions[..a],
        &coded[..c],
        &block[..b],
        script::front(line, b"room=", 0, &mut out),
    )
}

fn main(rt: HostRuntime) -> io::Result<()> {
    let mut text = [0u8; 16384];
    let n = input::read(&mut rt.stdin(), &mut text)?;
    for line in script::lines(&text[..n]) {
        run(&rt, line)?;
    }
    Ok(())
}
