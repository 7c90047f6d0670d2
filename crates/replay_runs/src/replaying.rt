// The replay of a trace, shown. A line of the script gives the trace under `trace=`, up to the line's end, with signs for what a line cannot hold:
// a slash is a newline, a tilde a carriage return, a caret BEGINNING, and a number sign as many zeros as `zeros=` says.
ghost use Rattle.std.specs.Prelude.{◌≡◌, ◌≤◌, length};

use std::io;

// The beginning of most traces: a head, and a send at tick 0.
const BEGINNING: [u8; 79] =
    *b"format=counter-trace\nedition=1\nfirst=0,0\ntimeout=1000\ntick=0\nkind=send\ndata=61\n";

// One byte more than the longest trace.
const ROOM: usize = 65537;

// Is this a sign that a value of 0 has?
fn nothing(b: u8) -> bool {
    matches!(b, b'=' | b',' | b'0')
}

// Is every number of a record's line 0?
fn zero(line: &[u8]) -> bool {
    let from = script::find(line, 0, b'=');
    line[from..].iter().all(|b| nothing(*b))
}

// Shows an answer's line, or a record's that is not 0.
fn shown(rt: &impl Print, line: &[u8]) -> io::Result<()> {
    if !line.is_empty() && line[0] != b'a' && zero(line) {
        return Ok(());
    }
    rt.write_all(b" ")?;
    rt.write_all(line)
}

// Shows an output.
fn output(rt: &impl Print, text: &[u8]) -> io::Result<()> {
    let mut n: u64 = 0;
    for line in script::lines(text) {
        shown(rt, line)?;
        n = n.wrapping_add(1);
    }
    showing::number(rt, b" lines=", n)
}

// Replays a trace, and shows its output.
pub(crate) fn replays(rt: &impl Print, trace: &[u8]) -> io::Result<()> {
    let mut text = [0u8; replayer::ROOM];
    let Ok(k) = replayer::replay(trace, &mut text) else {
        return Ok(());
    };
    output(rt, &text[..k])
}

// Lays text over out from place at on, if it fits; the result is the next free place.
fn lay(out: &mut [u8], at: usize, text: &[u8]) -> usize
    requires { at ≤ length out.old }
    ensures { result ≤ length out.old }
{
    if out.len() - at < text.len() {
        return at;
    }
    common::lay(out, at, text)
}

// Lays one byte, if it fits.
fn put(out: &mut [u8], at: usize, b: u8) -> usize
    requires { at ≤ length out.old }
    ensures { result ≤ length out.old }
{
    if out.len() <= at {
        return at;
    }
    out[at] = b;
    at + 1
}

// Passes over so many bytes, which are zeros already.
fn pass(out: &[u8], at: usize, n: u64) -> usize
    requires { at ≤ length out.now }
    ensures { result ≤ length out.now }
{
    if ((out.len() - at) as u64) < n {
        return at;
    }
    at + n as usize
}

// Lays what a sign of the script stands for.
fn sign(out: &mut [u8], at: usize, b: u8, zeros: u64) -> usize
    requires { at ≤ length out.old }
    ensures { result ≤ length out.old }
{
    match b {
        b'/' => put(out, at, b'\n'),
        b'~' => put(out, at, b'\r'),
        b'^' => lay(out, at, &BEGINNING),
        b'#' => pass(out, at, zeros),
        _ => put(out, at, b),
    }
}

// Lays a trace over out, and answers its length.
fn lays(line: &[u8], out: &mut [u8]) -> usize
    ensures { result ≤ length out.old }
{
    let zeros = script::number(line, b"zeros=");
    let mut at = 0;
    for b in &line[script::value(line, b"trace=")..] {
        at = sign(out, at, *b, zeros);
    }
    at
}

// Replays the trace of a line.
pub(crate) fn traced(rt: &impl Print, line: &[u8]) -> io::Result<()> {
    let mut trace = [b'0'; ROOM];
    let n = lays(line, &mut trace);
    replays(rt, &trace[..n])
}
