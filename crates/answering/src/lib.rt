// One event of a trace: its call, and the line of its answer.
#![tactic(auto)]

ghost use Rattle.std.specs.Prelude.{◌≡◌, ◌+◌, ◌≤◌, length};
ghost use Rattle.text.specs.Within.{LaidWithin};
ghost use Rattle.endpoint.specs.Calls.{call_of};
ghost use Rattle.calling.specs.Asks.{endpoint_with, call_by};
ghost use Rattle.answering.specs.Answers.{answer_for};

use receiver::Receiver;
use sender::Sender;

// Both records after an event's call, and the next free place behind its answer.
#[derive(Clone, Copy)]
pub struct Answered {
    // The sender's record after the call.
    pub sender: Sender,
    // The receiver's record after the call.
    pub receiver: Receiver,
    // The next free place of the output.
    pub at: usize,
}

// Makes the call of an event, and writes its answer. store is the receiver's, sent the sender's.
pub fn answer(
    s: Sender,
    r: Receiver,
    store: &mut [u8],
    sent: &mut [u8],
    kind: u8,
    tick: u32,
    bytes: &[u8],
    out: &mut [u8],
    at: usize,
) -> Answered
    requires { at + 30 ≤ length out.old }
    ensures left { endpoint_with result.sender result.receiver store.new sent.new ≡ call_of 32 32 (endpoint_with s r store.old sent.old) (call_by kind tick bytes.now) }
    ensures text { LaidWithin 30 (answer_for (endpoint_with s r store.old sent.old) (call_by kind tick bytes.now)) out.old at out.new result.at }
{
    let x = calling::call(s, r, store, sent, kind, tick, bytes);
    let n = common::number(x.answer);
    let lost = x.answer.unwrap_or(0);
    let end = record_lines::answer_line(out, at, kind == trace::SWEEP, n, lost);
    Answered {
        sender: x.sender,
        receiver: x.receiver,
        at: end,
    }
}
