// What stands between two lines of a trace: before the first, and behind the head, which opens the endpoint.
#![tactic(auto)]

ghost use Rattle.std.specs.Prelude.{◌≡◌};
ghost use Rattle.trace.specs.Read.{due_of};
ghost use Rattle.trace_state.specs.Steps.{opens_at, opened_by, open_with};
ghost use Rattle.trace_state.specs.Takes.{fresh_state};

use receiver::Receiver;
use sender::Sender;
use trace::Cursor;

// No line is due, since opening was refused. A number, as the others that the cursor's `due` may be.
pub const UNOPENED: u8 = 9;

// What stands between two lines.
#[derive(Clone, Copy)]
pub struct State {
    // Which line is due, and what the lines so far said.
    pub cursor: Cursor,
    // The sender's half.
    pub sender: Sender,
    // The receiver's half.
    pub receiver: Receiver,
}

// Before the first line nothing is opened.
pub fn begin() -> State
    ensures { result ≡ fresh_state }
{
    State {
        cursor: trace::begin(),
        sender: sender::opened(0, 0, 0),
        receiver: receiver::opened(0, 0),
    }
}

// Does the line between these two open the endpoint?
#[tactic(auto, unfolding(crate::specs::Steps::opens_at))]
pub fn opens(due: u8, after: u8) -> bool
    ensures { result ≡ opens_at due after }
{
    due == trace::TIMEOUT_DUE && after == trace::TICK_DUE
}

// Opens the endpoint of a head that was read.
pub fn opened(c: Cursor) -> State
    ensures cursor { result.cursor ≡ due_of c (opened_by c (open_with c)) }
    ensures sender { result.sender ≡ (open_with c).sender }
    ensures receiver { result.receiver ≡ (open_with c).receiver }
{
    let x = endpoint::open(c.firstdata, c.firstchannel, c.timeout);
    State {
        cursor: if x.answer.is_err() {
            trace::waiting(c, UNOPENED)
        } else {
            c
        },
        sender: x.sender,
        receiver: x.receiver,
    }
}
