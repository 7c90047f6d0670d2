// Runs the endpoint's own two calls by a script, on both sides of their boundaries: opening, and a datagram that concerns both halves. Shows one
// line for each call: its name, the sum of the receiver's store where the call was lent it, the answer, and both records as the call left them. The
// calls are `open`, `send` (a new block, so that there is something to acknowledge), `in` (a packet with these values arrives) and `bytes` (these
// bytes arrive).
#![tactic(auto)]

use common::Refusal;
use receiver::Receiver;
use sender::Sender;
use std::io;

// The two records of an endpoint.
#[derive(Clone, Copy)]
struct Pair {
    sender: Sender,
    receiver: Receiver,
}

// Shows the answer and both records, and hands these back.
fn left<T: Drop>(rt: &impl Print, answer: Result<T, Refusal>, p: Pair) -> io::Result<Pair> {
    showing::number(rt, b" answer=", common::number(answer) as u64)?;
    rt.write_all(b" sender")?;
    showing_records::sender(rt, p.sender)?;
    rt.write_all(b" receiver")?;
    showing_records::receiver(rt, p.receiver)?;
    rt.write_all(b"\n")?;
    Ok(p)
}

// Opens an endpoint.
fn opens(rt: &impl Print, line: &[u8]) -> io::Result<Pair> {
    let o = endpoint::open(
        script::long(line, b"firstdata="),
        script::long(line, b"firstchannel="),
        script::long(line, b"timeout="),
    );
    let p = Pair {
        sender: o.sender,
        receiver: o.receiver,
    };
    left(rt, o.answer, p)
}

// Sends a new block, with a store of its own: none is sent again here.
fn sends(rt: &impl Print, p: Pair, line: &[u8]) -> io::Result<Pair> {
    let mut sent = [0u8; window::STORE];
    let mut out = [0u8; 64];
    let mut block = [0u8; 32];
    let n = script::bytes(line, b"block=", &mut block);
    let got = sending::send(
        p.sender,
        &mut sent,
        script::long(line, b"tick="),
        &block[..n],
        &mut out,
    );
    let q = Pair {
        sender: got.sender,
        ..p
    };
    left(rt, got.written, q)
}

// A datagram arrives.
fn receives(rt: &impl Print, p: Pair, store: &mut [u8], d: &[u8]) -> io::Result<Pair> {
    let got = receiving::receive(p.sender, p.receiver, store, d);
    let q = Pair {
        sender: got.sender,
        receiver: got.receiver,
    };
    showing::sum(rt, b" store=", store, store.len())?;
    left(rt, got.answer, q)
}

// A packet with these values arrives, with the store or a part of it.
fn arrives(rt: &impl Print, p: Pair, store: &mut [u8], line: &[u8]) -> io::Result<Pair> {
    let mut d = [0u8; 1232];
    let n = script_packets::make(line, &mut d);
    let part = script::front(line, b"store=", window::STORE, store);
    receives(rt, p, part, &d[..n])
}

// These bytes arrive, with the store or a part of it.
fn bytes(rt: &impl Print, p: Pair, store: &mut [u8], line: &[u8]) -> io::Result<Pair> {
    let mut d = [0u8; 1233];
    let n = script::bytes(line, b"bytes=", &mut d);
    let part = script::front(line, b"store=", window::STORE, store);
    receives(rt, p, part, &d[..n])
}

// One line of the script.
fn run(rt: &impl Print, p: Pair, store: &mut [u8], line: &[u8]) -> io::Result<Pair> {
    script::name(rt, line)?;
    match script::call(line) {
        b'o' => opens(rt, line),
        b's' => sends(rt, p, line),
        b'i' => arrives(rt, p, store, line),
        _ => bytes(rt, p, store, line),
    }
}

// The records before the first line.
fn begin() -> Pair {
    Pair {
        sender: sender::opened(0, 0, 300),
        receiver: receiver::opened(0, 0),
    }
}

fn main(rt: HostRuntime) -> io::Result<()> {
    let mut store = [0x55u8; 39201];
    let mut text = [0u8; 16384];
    let n = input::read(&mut rt.stdin(), &mut text)?;
    let mut p = begin();
    for line in script::lines(&text[..n]) {
        p = run(&rt, p, &mut store, line)?;
    }
    Ok(())
}
