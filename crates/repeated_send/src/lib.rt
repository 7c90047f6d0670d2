// New blocks one after another, sent at one tick.
#![tactic(auto)]

ghost use Rattle.std.specs.Prelude.{◌≡◌, min, length};
ghost use Rattle.repeating.specs.Calls.{on_part, after, answered};
ghost use Rattle.repeating.specs.Steps.{sending_of, send_step, send_number};

use sender::Sender;

// Sends new blocks at one tick, each datagram over the one before it in out.
pub fn send(
    s: Sender,
    store: &mut [u8],
    tick: u32,
    bytes: &[u8],
    ends: &[u32],
    out: &mut [u8],
    answers: &mut [u32],
) -> Sender
    ensures record { sending_of result store.new out.new
        ≡ after (on_part (send_step tick) bytes.now ends.now) (sending_of s store.old out.old)
        (min (length ends.now) (length answers.old)) }
    ensures answers { answers.new
        ≡ answered (on_part (send_step tick) bytes.now ends.now) (on_part send_number bytes.now ends.now)
        (sending_of s store.old out.old) answers.old (min (length ends.now) (length answers.old)) }
{
    let mut q = s;
    let mut from: usize = 0;
    for i in 0..ends.len().min(answers.len()) {
        let end = repeating::end_of(from, ends[i], bytes.len());
        let x = sending::send(q, store, tick, &bytes[from..end], out);
        answers[i] = repeating::number(x.written);
        q = x.sender;
        from = end;
    }
    q
}
