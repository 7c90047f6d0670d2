// Sweep: one pass from the highest number down tells which pending numbers are lost; then they turn.
#![tactic(auto)]

ghost use Rattle.std.specs.Prelude.{◌≡◌, true, cond, ◌+◌, ◌≤◌, ◌<◌, leb};
ghost use Rattle.common.specs.Answer.{settled};
ghost use Rattle.common.specs.Every.{count_below};
ghost use Rattle.numbers.specs.Age.{reaches};
ghost use Rattle.numbers.specs.Full.{past_highest};
ghost use Rattle.sweeping.specs.FlagsLost.{FlagsLost};
ghost use Rattle.sender.specs.Sweep.{becomes_lost, sweep_answer, sweep_count, sweep_of};

use common::Refusal;
use numbers::DataNumber;
use sender::Sender;

// Which numbers are lost if they are pending, each at its place, and how many are pending and lost.
#[derive(Clone, Copy)]
pub struct Losses {
    // Is the number at this place lost, if it is pending?
    pub flags: [bool; 32],
    // How many are pending and lost.
    pub count: u32,
}

// What the call answers, and the record; it stands first, which spares copies of it.
#[derive(Clone, Copy)]
pub struct Swept {
    // The record after the call.
    pub sender: Sender,
    // How many became lost, or why none.
    pub lost: Result<u32, Refusal>,
}

// Is a number lost if it is pending, with so many higher ones received?
fn loses(higher: u32, timeout: u32, tick: u32, sent: u32) -> bool
    ensures { result ≡ cond (leb 3 higher) true (reaches timeout tick sent) }
{
    3 <= higher || timeout <= numbers::age(tick, sent)
}

// One more where both hold.
fn counted(n: u32, a: bool, b: bool) -> u32
    requires { n < 32 }
    ensures { result ≡ cond a (cond b (n + 1) n) n }
{
    if a && b { n + 1 } else { n }
}

// Judges every number on the record as it stands, with a running count of the received ones above it.
fn judge_all(s: Sender, tick: u32) -> Losses
    requires { s.low.0 ≤ past_highest }
    ensures { (result.count ≡ count_below (becomes_lost 32 s tick) 32) × FlagsLost s tick result.flags 0 }
{
    let mut flags = [false; 32];
    let mut count: u32 = 0;
    let mut higher: u32 = 0;
    for i in (0..DataNumber::WINDOW).rev() {
        let n = s.low.0 + i;
        let at = window::place(DataNumber(n));
        let p = s.numbers[at];
        let lost = loses(higher, s.timeout, tick, p.tick);
        flags[at] = lost;
        let pending = p.state == sender::PENDING;
        count = counted(count, pending, lost);
        let sent = n < s.next.0;
        let received = p.state == sender::RECEIVED;
        higher = counted(higher, sent, received);
    }
    Losses { flags, count }
}

// Pending numbers that are lost at this tick turn lost, and their blocks wait. The one refusal is 13.
pub fn sweep(s: Sender, tick: u32) -> Swept
    ensures lost { result.lost ≡ settled (sweep_answer 32 32 s) (sweep_count 32 32 s tick) }
    ensures record { result.sender ≡ sweep_of 32 32 s tick }
{
    if !sender_checking::consistent(s) {
        return Swept {
            sender: s,
            lost: Err(Refusal::Unsound),
        };
    }
    let l = judge_all(s, tick);
    let flags = l.flags;
    let q = turning::turn(s, flags, 0, sender::LOST, sender::WAITING);
    Swept {
        sender: q,
        lost: Ok(l.count),
    }
}
