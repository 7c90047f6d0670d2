// Runs the receiver by a script, on both sides of its boundaries, and shows one line for each call: its name, the answer, the record as the call
// left it, and the sum of the store where the call was lent it. The calls are `open`, `record` (a record with these numbers and no mark), `in` (a
// packet with these values arrives), `take` and `acknowledge`.
#![tactic(auto)]

use numbers::{ChannelNumber, DataNumber};
use receiver::Receiver;
use std::io;

// A record with these numbers, and nothing received.
fn stands(line: &[u8]) -> Receiver {
    Receiver {
        base: DataNumber(script::number(line, b"base=")),
        end: DataNumber(script::number(line, b"end=")),
        due: ChannelNumber(script::number(line, b"due=")),
        ..receiver::opened(0, 0)
    }
}

// The end of a line: the record and the store.
fn left(rt: &impl Print, r: Receiver, store: &[u8]) -> io::Result<()> {
    showing_records::receiver(rt, r)?;
    showing::sum(rt, b" store=", store, store.len())?;
    rt.write_all(b"\n")
}

// A datagram arrives.
fn receives(rt: &impl Print, r: Receiver, store: &mut [u8], d: &[u8]) -> io::Result<Receiver> {
    let got = arriving::receive(r, store, d);
    showing::number(rt, b" answer=", common::number(got.answer) as u64)?;
    left(rt, got.receiver, store)?;
    Ok(got.receiver)
}

// A packet arrives, with the store or with a part of it.
fn arrives(rt: &impl Print, r: Receiver, store: &mut [u8], line: &[u8]) -> io::Result<Receiver> {
    let mut d = [0u8; 1232];
    let n = script_packets::make(line, &mut d);
    let part = script::front(line, b"store=", window::STORE, store);
    receives(rt, r, part, &d[..n])
}

// A take into this buffer.
fn taken(rt: &impl Print, r: Receiver, store: &[u8], out: &mut [u8]) -> io::Result<Receiver> {
    showing::fill(out);
    let got = taking::take(r, store, out);
    showing::answered(rt, got.written, out)?;
    left(rt, got.receiver, store)?;
    Ok(got.receiver)
}

// A take into room for so many bytes, from the store or from a part of it.
fn takes(rt: &impl Print, r: Receiver, store: &[u8], line: &[u8]) -> io::Result<Receiver> {
    let mut out = [0u8; 1225];
    let part = &store[..script::lent(line, b"store=", window::STORE, store.len())];
    taken(rt, r, part, script::front(line, b"room=", 0, &mut out))
}

// An acknowledgement into this buffer.
fn acknowledged(rt: &impl Print, r: Receiver, out: &mut [u8]) -> io::Result<Receiver> {
    showing::fill(out);
    let w = reporting::acknowledge(r, 0x1234567, 7, out);
    showing::answered(rt, w, out)?;
    rt.write_all(b"\n")?;
    Ok(r)
}

// An acknowledgement into room for so many bytes.
fn acknowledges(rt: &impl Print, r: Receiver, line: &[u8]) -> io::Result<Receiver> {
    let mut out = [0u8; 64];
    acknowledged(rt, r, script::front(line, b"room=", 0, &mut out))
}

// A fresh record.
fn opened(line: &[u8]) -> Receiver {
    receiver::opened(
        script::word(line, b"firstdata="),
        script::word(line, b"firstchannel="),
    )
}

// Shows a record.
fn shown(rt: &impl Print, r: Receiver) -> io::Result<Receiver> {
    showing_records::receiver(rt, r)?;
    rt.write_all(b"\n")?;
    Ok(r)
}

// One line of the script.
fn run(rt: &impl Print, r: Receiver, store: &mut [u8], line: &[u8]) -> io::Result<Receiver> {
    script::name(rt, line)?;
    match script::call(line) {
        b'o' => shown(rt, opened(line)),
        b'r' => shown(rt, stands(line)),
        b'i' => arrives(rt, r, store, line),
        b't' => takes(rt, r, store, line),
        _ => acknowledges(rt, r, line),
    }
}

fn main(rt: HostRuntime) -> io::Result<()> {
    let mut store = [0x55u8; 39201];
    let mut text = [0u8; 16384];
    let n = input::read(&mut rt.stdin(), &mut text)?;
    let mut r = receiver::opened(0, 0);
    for line in script::lines(&text[..n]) {
        r = run(&rt, r, &mut store, line)?;
    }
    Ok(())
}
