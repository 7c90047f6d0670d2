// A new block: judged first, then written, and only then the record and the store change. `resending` sends one again.
#![tactic(auto)]

ghost use Rattle.std.specs.Prelude.{◌≡◌, true, cond, ◌+◌, ◌≤◌, length, leb, ltb};
ghost use Rattle.common.specs.Answer.{written_of, left_of};
ghost use Rattle.numbers.specs.Full.{highest, past_highest};
ghost use Rattle.sender.specs.Send.{at_limit_of, new_answer, new_datagram, new_of};
ghost use Rattle.sender.specs.Record.{state};

use carrying::Outcome;
use common::Refusal;
use numbers::{ChannelNumber, DataNumber};
use sender::Sender;

// Has a number passed the full range?
fn used_up(next: DataNumber, channelnext: ChannelNumber) -> bool
    ensures { result ≡ cond (ltb highest next.0) true (ltb highest channelnext.0) }
{
    if numbers::HIGHEST < next.0 {
        return true;
    }
    numbers::HIGHEST < channelnext.0
}

// Is a window full, with the peer's LogWindowSize?
fn full(
    low: DataNumber,
    next: DataNumber,
    logwindow: u8,
    channellow: ChannelNumber,
    channelnext: ChannelNumber,
) -> bool
    requires { (low.0 ≤ next.0) × (channellow.0 ≤ past_highest) }
    ensures { result ≡ cond (at_limit_of 32 low.0 next.0 logwindow) true (leb (channellow.0 + 32) channelnext.0) }
{
    if sender::at_limit(low, next, logwindow) {
        return true;
    }
    channellow.0 + ChannelNumber::WINDOW <= channelnext.0
}

// Sends a new block at a tick: writes its datagram into out, and keeps the block in store, the sender's own of 39,200 bytes. Refused with 13, 10,
// 12, 9, 14, in this order.
pub fn send(s: Sender, store: &mut [u8], tick: u32, block: &[u8], out: &mut [u8]) -> Outcome
    ensures answer { result.written ≡ written_of (new_answer 32 32 (state s store.old) block.now (length out.old)) (new_datagram (state s store.old) block.now) }
    ensures record { result.sender ≡ (new_of 32 32 (state s store.old) tick block.now (length out.old)).sender }
    ensures kept { store.new ≡ (new_of 32 32 (state s store.old) tick block.now (length out.old)).store }
    ensures bytes { out.new ≡ left_of (new_answer 32 32 (state s store.old) block.now (length out.old)) (new_datagram (state s store.old) block.now) out.old }
{
    if store.len() != window::STORE {
        return Outcome {
            written: Err(Refusal::Unsound),
            sender: s,
        };
    }
    if !sender_checking::consistent(s) {
        return Outcome {
            written: Err(Refusal::Unsound),
            sender: s,
        };
    }
    let low = s.low;
    let next = s.next;
    let channellow = s.channellow;
    let channel = s.channelnext;
    if sender::LONGEST_BLOCK < block.len() {
        return Outcome {
            written: Err(Refusal::TooWide),
            sender: s,
        };
    }
    if used_up(next, channel) {
        return Outcome {
            written: Err(Refusal::UsedUp),
            sender: s,
        };
    }
    if full(low, next, s.logwindow, channellow, channel) {
        return Outcome {
            written: Err(Refusal::Full),
            sender: s,
        };
    }
    match carrying::put_data(low, next, channel, block, out) {
        Err(refusal) => Outcome {
            written: Err(refusal),
            sender: s,
        },
        Ok(k) => {
            let at = window::place(channel);
            common::put(store, at * window::PLACE, block);
            let q = carrying::sent(
                s,
                tick,
                channel,
                block.len() as u16,
                1,
                ChannelNumber(channel.0 + 1),
            );
            Outcome {
                written: Ok(k),
                sender: q,
            }
        }
    }
}
