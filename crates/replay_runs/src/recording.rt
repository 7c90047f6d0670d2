// Heads and events that are recorded, and a morning of them that is then replayed.
ghost use Rattle.std.specs.Prelude.{◌≤◌, length};

use crate::replaying;
use std::io;

// Records the head; the result is the next free place.
fn head(out: &mut [u8]) -> usize
    ensures { result ≤ length out.old }
{
    trace_head::head(0, 0, 1000, out).unwrap_or(0)
}

// Records one event from place at on; the result is the next free place.
fn event(out: &mut [u8], at: usize, tick: u32, kind: u8, bytes: &[u8]) -> usize
    requires { at ≤ length out.old }
    ensures { result ≤ length out.old }
{
    at + trace_writing::event(tick, kind, bytes, &mut out[at..]).unwrap_or(0)
}

// Records an event of every kind.
fn every(out: &mut [u8], at: usize) -> usize
    requires { at ≤ length out.old }
    ensures { result ≤ length out.old }
{
    let at1 = event(out, at, 0, trace::IN, b"\x00\x04\x50\x00\x00\x00\x00\xc0");
    let at2 = event(out, at1, 10, trace::SEND, b"ab");
    let at3 = event(out, at2, 1010, trace::SWEEP, b"");
    let at4 = event(out, at3, 1020, trace::RESEND, b"");
    let at5 = event(out, at4, 1030, trace::TAKE, b"");
    event(out, at5, 4294967295, trace::ACKNOWLEDGE, b"")
}

// Records a morning.
fn morning(out: &mut [u8]) -> usize
    ensures { result ≤ length out.old }
{
    let at = head(out);
    every(out, at)
}

// Shows a trace as it is, and then its replay.
fn shown(rt: &impl Print, trace: &[u8]) -> io::Result<()> {
    rt.write_all(b"a recorded morning:\n")?;
    rt.write_all(trace)?;
    rt.write_all(b"its replay:")?;
    replaying::replays(rt, trace)?;
    rt.write_all(b"\n")
}

// Records a morning, and shows it.
pub(crate) fn recorded(rt: &impl Print) -> io::Result<()> {
    let mut out = [0u8; 512];
    let n = morning(&mut out);
    shown(rt, &out[..n])
}

// An event into this buffer.
fn tells(rt: &impl Print, line: &[u8], bytes: &[u8], out: &mut [u8]) -> io::Result<()> {
    showing::fill(out);
    let w = trace_writing::event(
        script::long(line, b"tick="),
        script::byte(line, b"kind="),
        bytes,
        out,
    );
    showing::answered(rt, w, out)
}

// An event of a line of the script, into room for so many bytes.
pub(crate) fn events(rt: &impl Print, line: &[u8]) -> io::Result<()> {
    let mut bytes = [0u8; 64];
    let mut out = [0u8; 256];
    let n = script::bytes(line, b"bytes=", &mut bytes);
    let part = script::front(line, b"room=", 0, &mut out);
    tells(rt, line, &bytes[..n], part)
}

// A head into this buffer.
fn begins(rt: &impl Print, line: &[u8], out: &mut [u8]) -> io::Result<()> {
    showing::fill(out);
    let w = trace_head::head(
        script::long(line, b"firstdata="),
        script::long(line, b"firstchannel="),
        script::long(line, b"timeout="),
        out,
    );
    showing::answered(rt, w, out)
}

// A head of a line of the script, into room for so many bytes.
pub(crate) fn heads(rt: &impl Print, line: &[u8]) -> io::Result<()> {
    let mut out = [0u8; 256];
    begins(rt, line, script::front(line, b"room=", 0, &mut out))
}
