// What each of the 256 vector bytes says, and the vectors of a script's states. Shows for each byte how many numbers it gives a state, how many of
// them it names as received, and the states themselves as a sum, 16 bytes to a line; then one line for each line of the script: its name, what
// writing answers, the vector's bytes, and how many other bytes of the lent buffer were touched. A line gives runs of states in turn: `lost=`,
// `got=`, `lost2=` and `got2=` say how many.
#![tactic(auto)]

ghost use Rattle.std.specs.Prelude.{◌<◌, ◌≤◌, length};

use std::io;

// The longest range of states.
const MOST: usize = 256;

// The states that a byte gives its numbers, the i-th as bit i of a number; those past the 63rd are not in it.
fn states(b: u8) -> u64 {
    let mut n: u64 = 0;
    for i in (0..63u8).rev() {
        n = n << 1 | vector::state(b, i) as u64;
    }
    n
}

// What one byte says.
fn says(rt: &impl Print, b: u8) -> io::Result<()> {
    showing::number(rt, b" ", vector::span(b) as u64)?;
    showing::number(rt, b":", vector::received(b) as u64)?;
    showing::number(rt, b":", states(b))
}

// What each byte says, 16 to a line.
fn all(rt: &impl Print) -> io::Result<()> {
    for b in 0..=255u8 {
        says(rt, b)?;
        if b % 16 == 15 {
            rt.write_all(b"\n")?;
        }
    }
    Ok(())
}

// So many states in a row, from place at on, as far as there is room; the result is the place behind them.
fn run(states: &mut [bool], at: usize, n: u64, s: bool) -> usize
    requires { at ≤ length states.old }
    ensures { result ≤ length states.old }
{
    let room = states.len() - at;
    let to = at + n.min(room as u64) as usize;
    states[at..to].fill(s);
    to
}

// The states of a line.
fn given(line: &[u8], states: &mut [bool]) -> usize
    ensures { result ≤ length states.old }
{
    let at1 = run(states, 0, script::number(line, b"lost="), false);
    let at2 = run(states, at1, script::number(line, b"got="), true);
    let at3 = run(states, at2, script::number(line, b"lost2="), false);
    run(states, at3, script::number(line, b"got2="), true)
}

// Writes the vector of these states into this buffer.
fn written(rt: &impl Print, states: &[bool], out: &mut [u8]) -> io::Result<()> {
    showing::fill(out);
    let w = coder::write(states, out);
    showing::answered(rt, w, out)?;
    rt.write_all(b"\n")
}

// One line of the script.
fn line(rt: &impl Print, line: &[u8]) -> io::Result<()> {
    let mut states = [false; MOST];
    let mut out = [0u8; 64];
    let n = given(line, &mut states);
    script::name(rt, line)?;
    written(rt, &states[..n], script::front(line, b"room=", 0, &mut out))
}

fn main(rt: HostRuntime) -> io::Result<()> {
    all(&rt)?;
    let mut text = [0u8; 4096];
    let n = input::read(&mut rt.stdin(), &mut text)?;
    for each in script::lines(&text[..n]) {
        line(&rt, each)?;
    }
    Ok(())
}
