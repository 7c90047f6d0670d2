// Runs the sender by a script, on both sides of its boundaries, and shows one line for each call: its name, the answer, the record as the call
// left it, and the sum of the store where the call was lent it. The calls are `open`, `record` (a record with these numbers, and nothing sent),
// `waiting` (the same, with blocks 0 and 1 waiting), `new` (a new block), `many` (so many new blocks of one byte, in one line), `again` (a
// resend), `in` (a packet with these values arrives) and `sweep`.
#![tactic(auto)]

use common::Refusal;
use numbers::{ChannelNumber, DataNumber};
use sender::{BlockPlace, Sender};
use std::io;

// A record with these numbers, and nothing sent.
fn stands(line: &[u8]) -> Sender {
    let next = DataNumber(script::number(line, b"next="));
    let channelnext = ChannelNumber(script::number(line, b"channelnext="));
    Sender {
        logwindow: script::byte(line, b"logwindow="),
        low: next,
        next,
        channellow: channelnext,
        channelnext,
        ..sender::opened(0, 0, 300)
    }
}

// A block of one byte that waits, and was sent so many times.
fn waits(sends: u8) -> BlockPlace {
    BlockPlace {
        state: sender::WAITING,
        sends,
        length: 1,
    }
}

// A record with these numbers in which blocks 0 and 1 wait, of one byte each: block 0 was sent so many times, block 1 once. The place
// behind them is not in use, and has this count.
fn waiting(line: &[u8]) -> Sender {
    let mut s = stands(line);
    s.channellow = ChannelNumber(0);
    s.channelnext = ChannelNumber(2);
    s.blocks[0] = waits(script::byte(line, b"sends="));
    s.blocks[1] = waits(1);
    s.blocks[2].sends = script::byte(line, b"unused=");
    s
}

// A fresh record.
fn opened(line: &[u8]) -> Sender {
    sender::opened(
        script::word(line, b"firstdata="),
        script::word(line, b"firstchannel="),
        script::long(line, b"timeout="),
    )
}

// The end of a line: the record, and the store.
fn left(rt: &impl Print, s: Sender, store: &[u8]) -> io::Result<()> {
    showing_records::sender(rt, s)?;
    showing::sum(rt, b" store=", store, store.len())?;
    rt.write_all(b"\n")
}

// Shows a record.
fn shown(rt: &impl Print, s: Sender) -> io::Result<Sender> {
    showing_records::sender(rt, s)?;
    rt.write_all(b"\n")?;
    Ok(s)
}

// A new block into this buffer.
fn sent(
    rt: &impl Print,
    s: Sender,
    store: &mut [u8],
    tick: u32,
    block: &[u8],
    out: &mut [u8],
) -> io::Result<Sender> {
    showing::fill(out);
    let got = sending::send(s, store, tick, block, out);
    showing::answered(rt, got.written, out)?;
    left(rt, got.sender, store)?;
    Ok(got.sender)
}

// A new block, with room for so many bytes, and with the store or a part of it.
fn sends(rt: &impl Print, s: Sender, store: &mut [u8], line: &[u8]) -> io::Result<Sender> {
    let mut out = [0u8; 1233];
    let mut block = [0u8; 1224];
    let n = script::bytes(line, b"block=", &mut block);
    sent(
        rt,
        s,
        script::front(line, b"store=", window::STORE, store),
        script::long(line, b"tick="),
        &block[..n],
        script::front(line, b"room=", 0, &mut out),
    )
}

// One of many blocks.
fn adds(s: Sender, store: &mut [u8], tick: u32) -> Sender {
    let mut out = [0u8; 64];
    sending::send(s, store, tick, b"a", &mut out).sender
}

// So many new blocks of one byte, at this tick.
fn added(rt: &impl Print, s: Sender, store: &mut [u8], tick: u32, n: u64) -> io::Result<Sender> {
    let mut q = s;
    for _ in 0..n {
        q = adds(q, store, tick);
    }
    left(rt, q, store)?;
    Ok(q)
}

// So many new blocks of one byte, with the store or a part of it.
fn many(rt: &impl Print, s: Sender, store: &mut [u8], line: &[u8]) -> io::Result<Sender> {
    added(
        rt,
        s,
        script::front(line, b"store=", window::STORE, store),
        script::long(line, b"tick="),
        script::number(line, b"count="),
    )
}

// A resend into this buffer.
fn resent(
    rt: &impl Print,
    s: Sender,
    store: &[u8],
    tick: u32,
    out: &mut [u8],
) -> io::Result<Sender> {
    showing::fill(out);
    let got = resending::resend(s, store, tick, out);
    showing::answered(rt, got.written, out)?;
    left(rt, got.sender, store)?;
    Ok(got.sender)
}

// A resend, with room for so many bytes.
fn resends(rt: &impl Print, s: Sender, store: &[u8], line: &[u8]) -> io::Result<Sender> {
    let mut out = [0u8; 1233];
    resent(
        rt,
        s,
        &store[..script::lent(line, b"store=", window::STORE, store.len())],
        script::long(line, b"tick="),
        script::front(line, b"room=", 0, &mut out),
    )
}

// The answer of a call that is lent no store, and the record.
fn told<T: Drop>(rt: &impl Print, answer: Result<T, Refusal>, s: Sender) -> io::Result<Sender> {
    showing::number(rt, b" answer=", common::number(answer) as u64)?;
    shown(rt, s)
}

// A packet with an acknowledgement arrives.
fn arrives(rt: &impl Print, s: Sender, line: &[u8]) -> io::Result<Sender> {
    let mut d = [0u8; 1232];
    let n = script_packets::make(line, &mut d);
    let got = acknowledging::acknowledge(s, &d[..n]);
    told(rt, got.answer, got.sender)
}

// A sweep.
fn sweeps(rt: &impl Print, s: Sender, line: &[u8]) -> io::Result<Sender> {
    let got = sweeping::sweep(s, script::long(line, b"tick="));
    showing::number(rt, b" lost=", got.lost.unwrap_or(0) as u64)?;
    told(rt, got.lost, got.sender)
}

// One line of the script.
fn run(rt: &impl Print, s: Sender, store: &mut [u8], line: &[u8]) -> io::Result<Sender> {
    script::name(rt, line)?;
    match script::call(line) {
        b'o' => shown(rt, opened(line)),
        b'r' => shown(rt, stands(line)),
        b'w' => shown(rt, waiting(line)),
        b'n' => sends(rt, s, store, line),
        b'm' => many(rt, s, store, line),
        b'a' => resends(rt, s, store, line),
        b'i' => arrives(rt, s, line),
        _ => sweeps(rt, s, line),
    }
}

fn main(rt: HostRuntime) -> io::Result<()> {
    let mut store = [0x55u8; 39201];
    let mut text = [0u8; 24576];
    let n = input::read(&mut rt.stdin(), &mut text)?;
    let mut s = sender::opened(0, 0, 300);
    for line in script::lines(&text[..n]) {
        s = run(&rt, s, &mut store, line)?;
    }
    Ok(())
}
