// Lists the datagrams of a script: of each its name, the lines of its listing, what listing answers, and how many bytes of the lent buffer behind
// them were touched.
#![tactic(auto)]

use common::Refusal;
use std::io;

// The listing, where there is one.
fn text(rt: &impl Print, w: Result<usize, Refusal>, out: &[u8]) -> io::Result<()> {
    match w {
        Ok(k) if k <= out.len() => rt.write_all(&out[..k]),
        _ => Ok(()),
    }
}

// The end of a listing: how many bytes it has, or why there is none.
fn ended(rt: &impl Print, w: Result<usize, Refusal>, out: &[u8]) -> io::Result<()> {
    match w {
        Err(refusal) => {
            showing::number(rt, b"refused=", u8::from(refusal) as u64)?;
            showing::touched(rt, out, 0)?;
        }
        Ok(k) => {
            showing::number(rt, b"wrote=", k as u64)?;
            showing::touched(rt, out, k)?;
        }
    }
    rt.write_all(b"\n")
}

// Lists a datagram into this buffer.
fn lists(rt: &impl Print, d: &[u8], out: &mut [u8]) -> io::Result<()> {
    showing::fill(out);
    let w = listing::lines(d, out);
    text(rt, w, out)?;
    ended(rt, w, out)
}

// One line of the script.
fn run(rt: &impl Print, line: &[u8]) -> io::Result<()> {
    let mut d = [0u8; 1233];
    let mut out = [0u8; 512];
    let n = script::bytes(line, b"bytes=", &mut d);
    script::name(rt, line)?;
    rt.write_all(b"\n")?;
    lists(rt, &d[..n], script::front(line, b"room=", 0, &mut out))
}

fn main(rt: HostRuntime) -> io::Result<()> {
    let mut text = [0u8; 4096];
    let n = input::read(&mut rt.stdin(), &mut text)?;
    for line in script::lines(&text[..n]) {
        run(&rt, line)?;
    }
    Ok(())
}
