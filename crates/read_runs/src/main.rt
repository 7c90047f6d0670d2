// Reads the datagrams of a script, on both sides of the boundary of each refusal, and writes one line for each: its name, what reading answers,
// and every value and place of the packet that is not 0, with the bytes at those places. A line of the script gives a datagram's bytes as they
// come: the first is the packet's seventh, the eighth is the prefix.
#![tactic(auto)]

use std::io;
use wire::{Ack, Delay, Packet, Vector};

// The values of an ACK.
fn ack(rt: &impl Print, a: Ack) -> io::Result<()> {
    showing::some(rt, b" ack=", a.number as u64)?;
    showing::some(rt, b" acktime=", a.time as u64)?;
    showing::some(rt, b" ackgap=", a.gap as u64)?;
    showing::some(rt, b" count=", a.count as u64)?;
    showing::some(rt, b" scale=", a.scale as u64)
}

// The values of a DelayAckInfo.
fn delay(rt: &impl Print, y: Delay) -> io::Result<()> {
    showing::some(rt, b" most=", y.most as u64)?;
    showing::some(rt, b" delay=", y.timeout as u64)
}

// The values of a vector.
fn vector(rt: &impl Print, x: Vector) -> io::Result<()> {
    showing::some(rt, b" base=", x.base as u64)?;
    showing::some(rt, b" size=", x.size as u64)?;
    if x.timed {
        rt.write_all(b" timed")?;
    }
    showing::some(rt, b" time=", x.time as u64)?;
    showing::some(rt, b" gap=", x.gap as u64)
}

// Bytes of a datagram: the place at which they stand, and which they are.
fn part(rt: &impl Print, word: &[u8], d: &[u8], at: usize, n: usize) -> io::Result<()> {
    if at == 0 {
        return Ok(());
    }
    showing::number(rt, word, at as u64)?;
    rt.write_all(b":")?;
    if d.len() < 8 || d.len() < at || d.len() - at < n || wire::LONGEST_DATAGRAM < n {
        return Ok(());
    }
    let mut bytes = [0u8; wire::LONGEST_DATAGRAM];
    parts::copy_part(&mut bytes, 0, d, at, n);
    showing::bytes(rt, &bytes, n)
}

// The values of a packet.
fn values(rt: &impl Print, p: Packet) -> io::Result<()> {
    let v = p.values;
    showing::number(rt, b" answer=0 flags=", v.flags as u64)?;
    showing::some(rt, b" logwindow=", v.logwindow as u64)?;
    ack(rt, v.ack)?;
    showing::some(rt, b" overhead=", v.overhead as u64)?;
    delay(rt, v.delay)?;
    showing::some(rt, b" aoa=", v.aoa as u64)?;
    showing::some(rt, b" data=", v.number as u64)?;
    vector(rt, v.vector)?;
    showing::some(rt, b" channel=", v.channel as u64)
}

// The bytes of a packet that have a length of their own.
fn parts(rt: &impl Print, p: Packet, d: &[u8]) -> io::Result<()> {
    let v = p.values;
    part(rt, b" additions=", d, p.additions, v.ack.count as usize)?;
    part(rt, b" coded=", d, p.vector, v.vector.size as usize)?;
    part(rt, b" block=", d, p.body, p.bytes)?;
    showing::some(rt, b" bytes=", p.bytes as u64)
}

// Reads a datagram, and shows what it says.
fn show(rt: &impl Print, d: &[u8]) -> io::Result<()> {
    match reader::read(d) {
        Err(refusal) => showing::number(rt, b" answer=", u8::from(refusal) as u64)?,
        Ok(None) => rt.write_all(b" answer=0 type=8")?,
        Ok(Some(p)) => {
            values(rt, p)?;
            parts(rt, p, d)?;
        }
    }
    rt.write_all(b"\n")
}

// One line of the script.
fn run(rt: &impl Print, line: &[u8]) -> io::Result<()> {
    let mut d = [0u8; 1233];
    let n = script::bytes(line, b"bytes=", &mut d);
    script::name(rt, line)?;
    show(rt, &d[..n])
}

fn main(rt: HostRuntime) -> io::Result<()> {
    let mut text = [0u8; 16384];
    let n = input::read(&mut rt.stdin(), &mut text)?;
    for line in script::lines(&text[..n]) {
        run(&rt, line)?;
    }
    Ok(())
}
