// One line of a trace: from the value that stands between two lines to the next, with the event's call and its answer.
#![tactic(auto)]

ghost use Rattle.std.specs.Prelude.{◌≡◌, ◌+◌, ◌≤◌, length};
ghost use Rattle.trace.specs.Read.{data_due};
ghost use Rattle.trace_state.specs.Takes.{Steps, machine_of};

use trace_state::State;

// Half of the longest trace: no line of data names more bytes.
const DATA: usize = 32768;

// What a line leaves.
#[derive(Clone, Copy)]
pub struct Stepped {
    // The next free place of the output.
    pub at: usize,
    // The state behind the line.
    pub state: State,
}

// Takes a line of data: makes the event's call, and writes its answer.
fn data_line(
    s: State,
    line: &[u8],
    store: &mut [u8],
    sent: &mut [u8],
    out: &mut [u8],
    at: usize,
) -> Stepped
    requires { (at + 30 ≤ length out.old) × (length line.now ≤ 65536) × (s.cursor.due ≡ data_due) }
    ensures { Steps (machine_of s store.old sent.old) line.now out.old at result.state store.new sent.new out.new result.at }
{
    let c = s.cursor;
    let mut bytes = [0u8; DATA];
    match trace_data::read(c.kind, line, &mut bytes) {
        Err(_) => Stepped {
            at,
            state: State {
                cursor: trace::behind_data(c, false),
                ..s
            },
        },
        Ok(n) => {
            let x = answering::answer(
                s.sender,
                s.receiver,
                store,
                sent,
                c.kind,
                c.tick,
                &bytes[..n],
                out,
                at,
            );
            Stepped {
                at: x.at,
                state: State {
                    cursor: trace::behind_data(c, true),
                    sender: x.sender,
                    receiver: x.receiver,
                },
            }
        }
    }
}

// Takes one line, without its newline.
pub fn step(
    s: State,
    line: &[u8],
    store: &mut [u8],
    sent: &mut [u8],
    out: &mut [u8],
    at: usize,
) -> Stepped
    requires { (at + 30 ≤ length out.old) × (length line.now ≤ 65536) }
    ensures { Steps (machine_of s store.old sent.old) line.now out.old at result.state store.new sent.new out.new result.at }
{
    let due = s.cursor.due;
    if due == trace::DATA_DUE {
        return data_line(s, line, store, sent, out, at);
    }
    let n = trace_reading::next(s.cursor, line);
    if trace_state::opens(due, n.due) {
        let state = trace_state::opened(n);
        return Stepped { at, state };
    }
    Stepped {
        at,
        state: State { cursor: n, ..s },
    }
}
