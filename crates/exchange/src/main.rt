// Two endpoints send each other blocks over a channel that loses, doubles, delays and reorders by a fixed rule. Shows for each end what was
// sent, lost, sent again and handed over, its records at the end, and whether every block was handed over once and in order.
#![tactic(auto)]

mod blocks;
mod channel;
mod ends;

use ends::End;
use std::io;

// How many blocks each end sends.
const BLOCKS: u32 = 20000;

// How many ticks they have for it.
const STEPS: u32 = 1000000;

// The tick at which they begin, so that ticks wrap on the way.
const FIRST_TICK: u32 = 4294940000;

// A word and a count.
fn count(rt: &impl Print, word: &[u8], n: u32) -> io::Result<()> {
    showing::number(rt, word, n as u64)
}

// What one end counted.
fn counts(rt: &impl Print, e: End) -> io::Result<()> {
    count(rt, b" sent=", e.sent)?;
    count(rt, b" covered=", e.covered)?;
    count(rt, b" lost=", e.lost)?;
    count(rt, b" resent=", e.resent)?;
    count(rt, b" stopped=", e.stopped)?;
    count(rt, b" doubled=", e.doubled)?;
    count(rt, b" refused=", e.refused)?;
    count(rt, b" handed=", e.handed)?;
    count(rt, b" wrong=", e.wrong)
}

// What one end counted, and its records.
fn shown(rt: &impl Print, name: &[u8], e: End) -> io::Result<()> {
    rt.write_all(name)?;
    counts(rt, e)?;
    rt.write_all(b"\nsender")?;
    showing_records::sender(rt, e.sender)?;
    rt.write_all(b"\nreceiver")?;
    showing_records::receiver(rt, e.receiver)?;
    rt.write_all(b"\n")
}

// Has an end been handed everything?
fn done(e: End) -> bool {
    BLOCKS <= e.handed
}

// Were all blocks handed over once and in order?
fn all(e: End) -> bool {
    e.handed == BLOCKS && e.wrong == 0
}

// Have both ends been handed everything?
fn finished(here: End, there: End) -> bool {
    done(here) && done(there)
}

// What both ends show.
fn report(rt: &impl Print, steps: u32, here: End, there: End) -> io::Result<()> {
    count(rt, b"ticks=", steps)?;
    rt.write_all(b"\n")?;
    shown(rt, b"here:", here)?;
    shown(rt, b"there:", there)?;
    if all(here) && all(there) {
        rt.write_all(b"every block was handed over once and in order\n")?;
    }
    Ok(())
}

fn main(rt: HostRuntime) -> io::Result<()> {
    let mut here = ends::opened(60000, 65000);
    let mut there = ends::opened(60000, 65000);
    let mut herestore = [0u8; window::STORE];
    let mut heresent = [0u8; window::STORE];
    let mut therestore = [0u8; window::STORE];
    let mut theresent = [0u8; window::STORE];
    let mut forth = [0u8; channel::SIZE];
    let mut back = [0u8; channel::SIZE];
    let mut seed: u32 = channel::next(1);
    let mut steps = STEPS;
    for step in 0..STEPS {
        if finished(here, there) {
            steps = step;
            break;
        }
        let tick = FIRST_TICK.wrapping_add(step);
        here = ends::acts(
            here,
            &mut herestore,
            &mut heresent,
            &mut back,
            &mut forth,
            seed,
            tick,
            BLOCKS,
        );
        seed = channel::after(seed);
        there = ends::acts(
            there,
            &mut therestore,
            &mut theresent,
            &mut forth,
            &mut back,
            seed,
            tick,
            BLOCKS,
        );
        seed = channel::after(seed);
    }
    report(&rt, steps, here, there)
}
