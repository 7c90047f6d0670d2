// Acknowledgement: judged first, in one walk of the vector where it stands in the datagram, and only then applied.
#![tactic(auto)]

ghost use Rattle.std.specs.Prelude.{◌≡◌, true, false, cond, ◌+◌, ◌≤◌, length, replicate, leb};
ghost use Rattle.common.specs.Answer.{number_of, answered_of};
ghost use Rattle.numbers.specs.Widen.{widen_of};
ghost use Rattle.numbers.specs.Full.{past_highest};
ghost use Rattle.vector.specs.Says.{states_of};
ghost use Rattle.wire.specs.Layout.{part_of};
ghost use Rattle.wire.specs.Read.{read_of, read_as};
ghost use Rattle.sender.specs.Consistent.{consistent_of};
ghost use Rattle.sender.specs.Acknowledge.{told_by, told_answer, told_of, acknowledge_answer, acknowledge_of};
ghost use Rattle.acknowledging.specs.Walk.{walk_of, judge_up_to, judge_listed, applied_of};

use common::Refusal;
use numbers::{DataNumber, Number, Widened};
use sender::Sender;
use wire::{Packet, bits};

// The numbers that an accepted acknowledgement names, by a flag at their place or by lying below a number.
#[derive(Clone, Copy)]
pub struct Named {
    // Is the number at this place named?
    pub flags: [bool; 32],
    // Every number below this one is named.
    pub upto: u64,
}

// What the call answers, and the record; it stands first, which spares copies of it.
#[derive(Clone, Copy)]
pub struct Acknowledged {
    // The record after the call.
    pub sender: Sender,
    // Accepted, or why not.
    pub answer: Result<(), Refusal>,
}

// Was number n named, and never sent?
fn never_sent(named: bool, n: u64, next: u64) -> bool
    ensures { result ≡ cond named (leb next n) false }
{
    named && next <= n
}

// The flag at number n's place, once n's state is known.
fn flagged(flag: bool, named: bool, n: u64, low: u64) -> bool
    ensures { result ≡ cond flag true (cond named (leb low n) false) }
{
    flag || (named && low <= n)
}

// Walks the vector of so many bytes at a place of a datagram, from number base on: the named numbers from low on, each flagged at its place, or none
// where a number is named that was never sent.
fn walk(d: &[u8], at: usize, size: usize, base: u64, next: u64, low: u64) -> Option<[bool; 32]>
    requires { (8 ≤ length d.now) × (at + size ≤ length d.now) × (size ≤ 127) × (base ≤ 8589934592) }
    ensures { result ≡ walk_of 32 (states_of (part_of d.now at size)) base next low (replicate 32 false) }
{
    let mut n = base;
    let mut flags = [false; 32];
    let mut never = false;
    'bytes: for j in 0..size {
        let b = parts::byte_at(d, at + j);
        for i in 0..vector::span(b) {
            let named = vector::state(b, i);
            if never_sent(named, n, next) {
                never = true;
                break 'bytes;
            }
            let place = window::place(DataNumber(n));
            let flag = flags[place];
            let kept = flagged(flag, named, n, low);
            flags[place] = kept;
            n += 1;
        }
    }
    if never { None } else { Some(flags) }
}

// Judges an ACK, which names every number up to its own.
fn judge_up_to(firstdata: u64, next: DataNumber, field: u16) -> Result<Named, Refusal>
    requires { next.0 ≤ past_highest }
    ensures { result ≡ judge_up_to 32 firstdata next.0 (widen_of next.0 field) }
{
    let Widened::At(n) = DataNumber::widen(next, field) else {
        return Err(Refusal::NeverSent);
    };
    if n.0 < firstdata || next.0 <= n.0 {
        return Err(Refusal::NeverSent);
    }
    Ok(Named {
        flags: [false; 32],
        upto: n.0 + 1,
    })
}

// Judges the vector of so many bytes at a place of a datagram.
fn judge_listed(
    d: &[u8],
    at: usize,
    size: usize,
    firstdata: u64,
    low: u64,
    next: DataNumber,
    field: u16,
) -> Result<Named, Refusal>
    requires { (8 ≤ length d.now) × (at + size ≤ length d.now) × (size ≤ 127) × (next.0 ≤ past_highest) }
    ensures { result ≡ judge_listed 32 firstdata low next.0 (widen_of next.0 field) (part_of d.now at size) }
{
    let Widened::At(n) = DataNumber::widen(next, field) else {
        return Err(Refusal::NeverSent);
    };
    if n.0 < firstdata {
        return Err(Refusal::NeverSent);
    }
    let Some(flags) = walk(d, at, size, n.0, next.0, low) else {
        return Err(Refusal::NeverSent);
    };
    Ok(Named { flags, upto: 0 })
}

// Judges what a packet of a datagram tells the sender. Nothing changes yet: a caller may judge more before it applies this.
pub fn judge(s: Sender, d: &[u8], p: Packet) -> Result<Named, Refusal>
    requires { (consistent_of 32 32 s ≡ true) × (read_of d.now ≡ read_as p) }
    ensures answer { number_of result ≡ told_answer s (told_by s d.now p) }
    ensures applied { applied_of 32 s result ≡ told_of 32 s (told_by s d.now p) }
{
    let values = p.values;
    if bits::flag(values.flags, wire::ACK) {
        return judge_up_to(s.firstdata.0, s.next, values.ack.number);
    }
    if bits::flag(values.flags, wire::ACKVEC) {
        let list = values.vector;
        return judge_listed(
            d,
            p.vector,
            list.size as usize,
            s.firstdata.0,
            s.low.0,
            s.next,
            list.base,
        );
    }
    Ok(Named {
        flags: [false; 32],
        upto: 0,
    })
}

// Takes one datagram into the sender's half alone: what it acknowledges, and its LogWindowSize. Refused with 13, then as reading it, then with 8.
pub fn acknowledge(s: Sender, d: &[u8]) -> Acknowledged
    ensures answer { result.answer ≡ answered_of (acknowledge_answer 32 32 s d.now) }
    ensures record { result.sender ≡ acknowledge_of 32 32 s d.now }
{
    if !sender_checking::consistent(s) {
        return Acknowledged {
            sender: s,
            answer: Err(Refusal::Unsound),
        };
    }
    match reader::read(d) {
        Err(refusal) => Acknowledged {
            sender: s,
            answer: Err(refusal),
        },
        Ok(None) => Acknowledged {
            sender: s,
            answer: Ok(()),
        },
        Ok(Some(p)) => match judge(s, d, p) {
            Err(refusal) => Acknowledged {
                sender: s,
                answer: Err(refusal),
            },
            Ok(named) => {
                let mut q = turning::turn(
                    s,
                    named.flags,
                    named.upto,
                    sender::RECEIVED,
                    sender::ACKNOWLEDGED,
                );
                q.logwindow = p.values.logwindow;
                Acknowledged {
                    sender: q,
                    answer: Ok(()),
                }
            }
        },
    }
}
