// A resend: judged first, then written, and only then the record changes.
#![tactic(auto)]

ghost use Rattle.std.specs.Prelude.{◌≡◌, length};
ghost use Rattle.common.specs.Answer.{written_of, left_of};
ghost use Rattle.sender.specs.Record.{state};
ghost use Rattle.sender.specs.Send.{lowest_waiting, resend_answer, resend_datagram, resend_of};
ghost use Rattle.resending.specs.Lowest.{lowest_of};

use carrying::Outcome;
use common::Refusal;
use numbers::ChannelNumber;
use sender::Sender;

// Finds the waiting block of lowest channel number, if any waits.
fn lowest_waiting(s: Sender) -> Option<ChannelNumber>
    ensures { result ≡ lowest_of (lowest_waiting 32 s) }
{
    for c in s.channellow.0..s.channelnext.0 {
        let at = window::place(ChannelNumber(c));
        let b = s.blocks[at];
        if b.state == sender::WAITING {
            return Some(ChannelNumber(c));
        }
    }
    None
}

// Sends the waiting block of lowest channel number again, from the sender's own store: writes its datagram, under a new data number, into out.
// Refused with 13, 11, 22, 12, 9, 14, in this order; with 22 if that block was sent six times, whether others wait behind it or not.
pub fn resend(s: Sender, store: &[u8], tick: u32, out: &mut [u8]) -> Outcome
    ensures answer { result.written ≡ written_of (resend_answer 32 32 (state s store.now) (length out.old)) (resend_datagram 32 (state s store.now)) }
    ensures record { result.sender ≡ resend_of 32 32 (state s store.now) tick (length out.old) }
    ensures bytes { out.new ≡ left_of (resend_answer 32 32 (state s store.now) (length out.old)) (resend_datagram 32 (state s store.now)) out.old }
{
    if store.len() != window::STORE {
        return Outcome {
            written: Err(Refusal::Unsound),
            sender: s,
        };
    }
    if !sender_checking::consistent(s) {
        return Outcome {
            written: Err(Refusal::Unsound),
            sender: s,
        };
    }
    let Some(c) = lowest_waiting(s) else {
        return Outcome {
            written: Err(Refusal::Nothing),
            sender: s,
        };
    };
    // The block's place is read from a copy of the places, so that the record is not copied.
    let at = window::place(c);
    let places = s.blocks;
    let b = places[at];
    if b.sends == sender::MOST_SENDS {
        return Outcome {
            written: Err(Refusal::Spent),
            sender: s,
        };
    }
    let low = s.low;
    let next = s.next;
    if numbers::HIGHEST < next.0 {
        return Outcome {
            written: Err(Refusal::UsedUp),
            sender: s,
        };
    }
    if sender::at_limit(low, next, s.logwindow) {
        return Outcome {
            written: Err(Refusal::Full),
            sender: s,
        };
    }
    let length = b.length;
    let start = at * window::PLACE;
    match carrying::put_data(low, next, c, &store[start..start + length as usize], out) {
        Err(refusal) => Outcome {
            written: Err(refusal),
            sender: s,
        },
        Ok(k) => {
            let q = carrying::sent(s, tick, c, length, b.sends + 1, s.channelnext);
            Outcome {
                written: Ok(k),
                sender: q,
            }
        }
    }
}
