// The records of the two halves, on one line: every field and every place that is not 0. A place is shown by its
// number, 0 to 31.
#![tactic(auto)]

use receiver::Receiver;
use sender::Sender;
use std::io;

// The marks of a receiver: the places of the numbers that are received.
fn marks(rt: &impl Print, r: Receiver) -> io::Result<()> {
    for (i, m) in r.marks.iter().enumerate() {
        if *m != 0 {
            showing::number(rt, b" mark", i as u64)?;
            showing::number(rt, b"=", *m as u64)?;
        }
    }
    Ok(())
}

// The blocks that a receiver holds: of each 1, and the block's length.
fn holds(rt: &impl Print, r: Receiver) -> io::Result<()> {
    for (i, h) in r.holds.iter().enumerate() {
        if h.held != 0 || h.length != 0 {
            showing::number(rt, b" hold", i as u64)?;
            showing::number(rt, b"=", h.held as u64)?;
            showing::number(rt, b",", h.length as u64)?;
        }
    }
    Ok(())
}

// The receiver's record.
pub fn receiver(rt: &impl Print, r: Receiver) -> io::Result<()> {
    showing::some(rt, b" firstdata=", r.firstdata.0)?;
    showing::some(rt, b" firstchannel=", r.firstchannel.0)?;
    showing::number(rt, b" base=", r.base.0)?;
    showing::number(rt, b" end=", r.end.0)?;
    showing::number(rt, b" due=", r.due.0)?;
    marks(rt, r)?;
    holds(rt, r)
}

// The places of a sender's data numbers: of each its state, the block that it carried, and the tick at which it was sent.
fn numbers(rt: &impl Print, s: Sender) -> io::Result<()> {
    for (i, p) in s.numbers.iter().enumerate() {
        if p.state != 0 || p.channel.0 != 0 || p.tick != 0 {
            showing::number(rt, b" number", i as u64)?;
            showing::number(rt, b"=", p.state as u64)?;
            showing::number(rt, b",", p.channel.0)?;
            showing::number(rt, b",", p.tick as u64)?;
        }
    }
    Ok(())
}

// The places of a sender's blocks: of each its state, its length and how often it was sent.
fn blocks(rt: &impl Print, s: Sender) -> io::Result<()> {
    for (i, b) in s.blocks.iter().enumerate() {
        if b.state != 0 || b.length != 0 || b.sends != 0 {
            showing::number(rt, b" block", i as u64)?;
            showing::number(rt, b"=", b.state as u64)?;
            showing::number(rt, b",", b.length as u64)?;
            showing::number(rt, b",", b.sends as u64)?;
        }
    }
    Ok(())
}

// The sender's record.
pub fn sender(rt: &impl Print, s: Sender) -> io::Result<()> {
    showing::some(rt, b" firstdata=", s.firstdata.0)?;
    showing::some(rt, b" firstchannel=", s.firstchannel.0)?;
    showing::number(rt, b" timeout=", s.timeout as u64)?;
    showing::number(rt, b" logwindow=", s.logwindow as u64)?;
    showing::number(rt, b" low=", s.low.0)?;
    showing::number(rt, b" next=", s.next.0)?;
    showing::number(rt, b" channellow=", s.channellow.0)?;
    showing::number(rt, b" channelnext=", s.channelnext.0)?;
    numbers(rt, s)?;
    blocks(rt, s)
}
