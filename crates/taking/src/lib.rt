// The host takes the block that is due.
#![tactic(auto)]

ghost use Rattle.std.specs.Prelude.{◌≡◌, ◌≤◌, length};
ghost use Rattle.common.specs.Answer.{written_of, left_of};
ghost use Rattle.numbers.specs.Full.{past_highest};
ghost use Rattle.receiver.specs.Record.{state};
ghost use Rattle.receiver.specs.Take.{take_answer, block_due, receiver_taken, taken_of};

use common::Refusal;
use numbers::ChannelNumber;
use receiver::{Hold, Receiver};

// What taking a block answers, and the record after the call; it stands first, which spares copies of it.
#[derive(Clone, Copy)]
pub struct Taken {
    // The record after the call.
    pub receiver: Receiver,
    // The refusal, or how many bytes were copied out.
    pub written: Result<usize, Refusal>,
}

// The record without the block due; the next one is due.
fn freed(r: Receiver) -> Receiver
    requires { r.due.0 ≤ past_highest }
    ensures { result ≡ receiver_taken 32 r }
{
    let at = window::place(r.due);
    let next = ChannelNumber(r.due.0 + 1);
    let mut q = r;
    q.holds[at] = Hold { held: 0, length: 0 };
    q.due = next;
    q
}

// Takes the block due: copies it from store into out, and frees its place. Refused with 13, 11, 14, in this order.
pub fn take(r: Receiver, store: &[u8], out: &mut [u8]) -> Taken
    ensures answer { result.written ≡ written_of (take_answer 32 32 (state r store.now) (length out.old)) (block_due 32 (state r store.now)) }
    ensures record { result.receiver ≡ taken_of 32 32 (state r store.now) (length out.old) }
    ensures bytes { out.new ≡ left_of (take_answer 32 32 (state r store.now) (length out.old)) (block_due 32 (state r store.now)) out.old }
{
    if !window::sound(receiver_checking::consistent(r), store.len()) {
        return Taken {
            receiver: r,
            written: Err(Refusal::Unsound),
        };
    }
    let at = window::place(r.due);
    let h = r.holds[at];
    if h.held != 1 {
        return Taken {
            receiver: r,
            written: Err(Refusal::Nothing),
        };
    }
    let n = h.length as usize;
    if out.len() < n {
        return Taken {
            receiver: r,
            written: Err(Refusal::Room),
        };
    }
    let from = at * window::PLACE;
    let k = common::lay(out, 0, &store[from..from + n]);
    let q = freed(r);
    Taken {
        receiver: q,
        written: Ok(k),
    }
}
