// One set of 32 packets arrives in several orders, with repeats and with takes between. Shows for each order the blocks that were handed over, how
// many packets were accepted, and both records at the end: they are the same for all.
#![tactic(auto)]

mod packets;

use receiver::Receiver;
use sender::Sender;
use std::io;

// An endpoint's records, and what was counted.
#[derive(Clone, Copy)]
struct Run {
    sender: Sender,
    receiver: Receiver,
    accepted: u32,
    refused: u32,
}

// One more.
fn more(n: u32) -> u32 {
    n.wrapping_add(1)
}

// The first n bytes arrive.
fn arrives(r: Run, store: &mut [u8], datagram: &[u8], n: usize) -> Run {
    if datagram.len() < n {
        return r;
    }
    let got = receiving::receive(r.sender, r.receiver, store, &datagram[..n]);
    let s = got.sender;
    let q = got.receiver;
    let mut next = r;
    next.sender = s;
    next.receiver = q;
    if got.answer.is_ok() {
        next.accepted = more(r.accepted);
    } else {
        next.refused = more(r.refused);
    }
    next
}

// The k-th packet of the set arrives.
fn packet(r: Run, store: &mut [u8], k: u32) -> Run {
    let mut datagram = [0u8; 64];
    let n = packets::make(&mut datagram, k);
    arrives(r, store, &datagram, n)
}

// Takes the block due, if it is held.
fn takes(rt: &impl Print, r: Run, store: &[u8]) -> io::Result<Run> {
    let mut block = [0u8; 64];
    let got = taking::take(r.receiver, store, &mut block);
    let q = got.receiver;
    let mut next = r;
    next.receiver = q;
    if let Ok(n) = got.written {
        rt.write_all(b" ")?;
        showing::bytes(rt, &block, n)?;
    }
    Ok(next)
}

// A packet arrives, and every third time once more.
fn comes(r: Run, store: &mut [u8], i: u32, k: u32) -> Run {
    let q = packet(r, store, k);
    if i % 3 == 0 {
        return packet(q, store, k);
    }
    q
}

// The set, in the order that begins at start and goes on by this factor, with a take every so often.
fn all(
    rt: &impl Print,
    r: Run,
    store: &mut [u8],
    factor: u32,
    start: u32,
    every: u32,
) -> io::Result<Run> {
    let mut q = r;
    let mut k = start;
    for i in 0..32u32 {
        q = comes(q, store, i, k);
        k = packets::next(k, factor);
        if packets::ends(every, i) {
            q = takes(rt, q, store)?;
        }
    }
    Ok(q)
}

// Takes what is ready.
fn rest(rt: &impl Print, r: Run, store: &[u8]) -> io::Result<Run> {
    let mut q = r;
    for _ in 0..32 {
        q = takes(rt, q, store)?;
    }
    Ok(q)
}

// The counts and the records at the end.
fn shown(rt: &impl Print, r: Run) -> io::Result<()> {
    showing::number(rt, b"\naccepted=", r.accepted as u64)?;
    showing::number(rt, b" refused=", r.refused as u64)?;
    rt.write_all(b"\nreceiver")?;
    showing_records::receiver(rt, r.receiver)?;
    rt.write_all(b"\nsender")?;
    showing_records::sender(rt, r.sender)?;
    rt.write_all(b"\n")
}

// One order, from a fresh endpoint.
fn order(
    rt: &impl Print,
    name: &[u8],
    store: &mut [u8],
    factor: u32,
    start: u32,
    every: u32,
) -> io::Result<()> {
    let o = endpoint::open(packets::FIRSTDATA, packets::FIRSTCHANNEL, 300);
    let s = o.sender;
    let q = o.receiver;
    let r = Run {
        sender: s,
        receiver: q,
        accepted: 0,
        refused: 0,
    };
    rt.write_all(name)?;
    rt.write_all(b"\nhanded:")?;
    let a = all(rt, r, store, factor, start, every)?;
    shown(rt, rest(rt, a, store)?)
}

fn main(rt: HostRuntime) -> io::Result<()> {
    let mut store = [0u8; 39200];
    order(&rt, b"forward, a take after each", &mut store, 1, 0, 1)?;
    order(
        &rt,
        b"backward, a take after every fourth",
        &mut store,
        31,
        31,
        4,
    )?;
    order(
        &rt,
        b"by fives, a take after every second",
        &mut store,
        5,
        0,
        2,
    )?;
    order(
        &rt,
        b"by elevens from 7, no take between",
        &mut store,
        11,
        7,
        40,
    )?;
    order(
        &rt,
        b"by thirteens from 21, a take after every third",
        &mut store,
        13,
        21,
        3,
    )
}
