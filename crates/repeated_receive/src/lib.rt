// Datagrams one after another, received into both halves.
#![tactic(auto)]

ghost use Rattle.std.specs.Prelude.{◌≡◌, min, length};
ghost use Rattle.endpoint.specs.Receive.{halves, receive_answer, receive_of};
ghost use Rattle.repeating.specs.Calls.{on_part, after, answered};

use receiver::Receiver;
use sender::Sender;

// Both halves of an endpoint.
#[repr(C)]
#[derive(Clone, Copy)]
pub struct Both {
    // The sender's record.
    pub sender: Sender,
    // The receiver's record.
    pub receiver: Receiver,
}

// Receives datagrams into both halves.
pub fn receive(
    s: Sender,
    r: Receiver,
    store: &mut [u8],
    bytes: &[u8],
    ends: &[u32],
    answers: &mut [u8],
) -> Both
    ensures record { halves result.sender result.receiver store.new
        ≡ after (on_part (receive_of 32 32) bytes.now ends.now) (halves s r store.old) (min (length ends.now) (length answers.old)) }
    ensures answers { answers.new
        ≡ answered (on_part (receive_of 32 32) bytes.now ends.now) (on_part (receive_answer 32 32) bytes.now ends.now)
        (halves s r store.old) answers.old (min (length ends.now) (length answers.old)) }
{
    let mut q = s;
    let mut t = r;
    let mut from: usize = 0;
    for i in 0..ends.len().min(answers.len()) {
        let end = repeating::end_of(from, ends[i], bytes.len());
        let y = receiving::receive(q, t, store, &bytes[from..end]);
        answers[i] = common::number(y.answer);
        q = y.sender;
        t = y.receiver;
        from = end;
    }
    Both {
        sender: q,
        receiver: t,
    }
}
