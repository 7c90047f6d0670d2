// One end: the two records of an endpoint, and what it has counted.
use crate::{blocks, channel};
use common::Refusal;
use receiver::Receiver;
use sender::Sender;

// The two records of an endpoint, and its counts.
#[derive(Clone, Copy)]
pub struct End {
    pub sender: Sender,
    pub receiver: Receiver,
    // How many blocks it sent, and how many of the other end's it was handed.
    pub sent: u32,
    pub handed: u32,
    // Blocks that were not the next of the other end's.
    pub wrong: u32,
    // Numbers that a sweep found lost, and blocks sent again.
    pub lost: u32,
    pub resent: u32,
    // How often a resend was refused with 22; the end says nothing more then.
    pub stopped: u32,
    // Datagrams that it put over another, datagrams that it left to arrive once more, and datagrams that were refused.
    pub covered: u32,
    pub doubled: u32,
    pub refused: u32,
}

// An end that has sent nothing.
pub(crate) fn opened(firstdata: u32, firstchannel: u32) -> End {
    let o = endpoint::open(firstdata, firstchannel, 300);
    End {
        sender: o.sender,
        receiver: o.receiver,
        sent: 0,
        handed: 0,
        wrong: 0,
        lost: 0,
        resent: 0,
        stopped: 0,
        covered: 0,
        doubled: 0,
        refused: 0,
    }
}

// A datagram arrives.
fn arrives(e: End, store: &mut [u8], datagram: &[u8]) -> End {
    let got = receiving::receive(e.sender, e.receiver, store, datagram);
    End {
        sender: got.sender,
        receiver: got.receiver,
        refused: e.refused.wrapping_add(got.answer.is_err() as u32),
        ..e
    }
}

// What stands at a place of the channel arrives, if anything does.
fn receives(e: End, store: &mut [u8], channel: &[u8], at: usize) -> End {
    match channel::get(channel, at) {
        Some(datagram) => arrives(e, store, datagram),
        None => e,
    }
}

// Takes the block due, if it is held, and compares it with the other end's next.
pub(crate) fn takes(e: End, store: &[u8]) -> End {
    let mut block = [0u8; 64];
    let got = taking::take(e.receiver, store, &mut block);
    let Ok(n) = got.written else {
        return End {
            receiver: got.receiver,
            ..e
        };
    };
    End {
        receiver: got.receiver,
        handed: e.handed.wrapping_add(1),
        wrong: e
            .wrong
            .wrapping_add(!blocks::is(&block, n, e.handed) as u32),
        ..e
    }
}

// Puts the first n bytes into the channel.
fn puts(e: End, channel: &mut [u8], at: usize, datagram: &[u8], n: usize) -> End {
    if datagram.len() < n {
        return e;
    }
    let covered = channel::get(channel, at).is_some();
    channel::put(channel, at, &datagram[..n]);
    End {
        covered: e.covered.wrapping_add(covered as u32),
        ..e
    }
}

// Sends a waiting block again, or else the next one, up to so many. An end whose block was sent six times gives up.
fn sends(e: End, sent: &mut [u8], channel: &mut [u8], at: usize, tick: u32, upto: u32) -> End {
    let mut datagram = [0u8; 64];
    let again = resending::resend(e.sender, sent, tick, &mut datagram);
    match again.written {
        Ok(n) => {
            let q = End {
                sender: again.sender,
                resent: e.resent.wrapping_add(1),
                ..e
            };
            puts(q, channel, at, &datagram, n)
        }
        Err(Refusal::Spent) => End {
            stopped: e.stopped.wrapping_add(1),
            ..e
        },
        Err(_) if upto <= e.sent => e,
        Err(_) => new(e, sent, channel, at, tick),
    }
}

// Sends the next block, if the window has room.
fn new(e: End, sent: &mut [u8], channel: &mut [u8], at: usize, tick: u32) -> End {
    let mut datagram = [0u8; 64];
    let mut block = [0u8; 64];
    let k = blocks::make(&mut block, e.sent);
    if block.len() < k {
        return e;
    }
    let got = sending::send(e.sender, sent, tick, &block[..k], &mut datagram);
    let Ok(n) = got.written else {
        return e;
    };
    let q = End {
        sender: got.sender,
        sent: e.sent.wrapping_add(1),
        ..e
    };
    puts(q, channel, at, &datagram, n)
}

// Writes an acknowledgement, if there is one to write.
fn acknowledges(e: End, channel: &mut [u8], at: usize, tick: u32) -> End {
    let mut datagram = [0u8; 64];
    let Ok(n) = reporting::acknowledge(e.receiver, tick, 0, &mut datagram) else {
        return e;
    };
    puts(e, channel, at, &datagram, n)
}

// A sweep.
fn sweeps(e: End, tick: u32) -> End {
    let got = sweeping::sweep(e.sender, tick);
    End {
        sender: got.sender,
        lost: e.lost.wrapping_add(got.lost.unwrap_or(0)),
        ..e
    }
}

// What arrived is taken out of the channel, or left there to arrive once more.
fn leaves(e: End, channel: &mut [u8], at: usize, stays: bool) -> End {
    if channel::get(channel, at).is_none() {
        return e;
    }
    if stays {
        return End {
            doubled: e.doubled.wrapping_add(1),
            ..e
        };
    }
    channel::clear(channel, at);
    e
}

// What comes in at this place: a datagram, and the block due.
fn hears_at(e: End, store: &mut [u8], channel: &mut [u8], seed: u32, at: usize) -> End {
    let q = receives(e, store, channel, at);
    let left = leaves(q, channel, at, seed / 1048576 % 8 == 0);
    takes(left, store)
}

// What comes in at two places, the first so many behind the one that the rule names.
fn hears_two(e: End, store: &mut [u8], channel: &mut [u8], seed: u32, behind: u32) -> End {
    let q = hears_at(e, store, channel, seed, channel::place(seed, behind));
    hears_at(
        q,
        store,
        channel,
        seed,
        channel::place(seed, behind.wrapping_add(1)),
    )
}

// What comes in at this tick, at four places: so seldom is a datagram covered that no block is sent a seventh time.
fn hears(e: End, store: &mut [u8], channel: &mut [u8], seed: u32) -> End {
    let q = hears_two(e, store, channel, seed, 0);
    hears_two(q, store, channel, seed, 2)
}

// What goes out at this tick: an acknowledgement or a block; every now and then a sweep before it.
fn says(e: End, sent: &mut [u8], channel: &mut [u8], seed: u32, tick: u32, upto: u32) -> End {
    let at = channel::place(seed, 0);
    let q = if seed / 8388608 % 8 == 0 {
        sweeps(e, tick)
    } else {
        e
    };
    if seed / 1048576 % 2 == 0 {
        return acknowledges(q, channel, at, tick);
    }
    sends(q, sent, channel, at, tick, upto)
}

// One end's turn: it hears and takes, then it says something.
pub(crate) fn acts(
    e: End,
    store: &mut [u8],
    sent: &mut [u8],
    inward: &mut [u8],
    outward: &mut [u8],
    seed: u32,
    tick: u32,
    upto: u32,
) -> End {
    let q = hears(e, store, inward, seed);
    says(q, sent, outward, channel::next(seed), tick, upto)
}
