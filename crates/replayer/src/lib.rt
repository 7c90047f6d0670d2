// Replays a counter's morning: from a fresh endpoint, one call for each event of a trace, a line for each answer, and at the end the full record.
// A trace is taken line by line, with a value between the lines; no line of it is looked at again, and the output is laid once and then copied out.
#![tactic(auto)]

ghost use Rattle.std.specs.Prelude.{◌≡◌, ◌+◌, ◌≤◌, length};
ghost use Rattle.common.specs.Answer.{written_of, left_of, room_answer};
ghost use Rattle.text.specs.Within.{LaidWithin};
ghost use Rattle.trace.specs.Lines.{lines_of};
ghost use Rattle.replayer.specs.Replay.{blank_store, replay_of};
ghost use Rattle.trace_state.specs.Steps.{begun, end_for, run_of};

use common::Refusal;
use trace_state::State;

// The longest trace.
pub const LONGEST_TRACE: usize = 65536;

// No output is longer.
pub const ROOM: usize = 131072;

// What follows the last line.
fn finish(s: State, out: &mut [u8], at: usize) -> usize
    requires { at + 10881 ≤ length out.old }
    ensures { LaidWithin 10881 (end_for s.cursor.due s.sender s.receiver) out.old at out.new result }
{
    match s.cursor.due {
        trace::TICK_DUE => record_lines::full_record(out, at, s.sender, s.receiver),
        trace::KIND_DUE..=trace::BROKEN => {
            let mid = record_lines::answer_line(out, at, false, 16, 0);
            record_lines::full_record(out, mid, s.sender, s.receiver)
        }
        trace_state::UNOPENED => record_lines::answer_line(out, at, false, 15, 0),
        _ => record_lines::answer_line(out, at, false, 16, 0),
    }
}

// The replay of a trace, line by line, over both stores.
fn run(trace: &[u8], store: &mut [u8], sent: &mut [u8], out: &mut [u8]) -> usize
    requires { (length trace.now ≤ 65536) × (131072 ≤ length out.old) }
    ensures { LaidWithin 131072 (run_of (begun store.old sent.old) (lines_of trace.now)) out.old 0 out.new result }
{
    let mut state = trace_state::begin();
    let mut at = 0;
    let mut from = 0;
    // An iterator over the lines would carry this place in a struct of its own, and the proof counts the lines that are left by it.
    while from < trace.len() {
        let end = trace_words::find(trace, from, trace::NEWLINE);
        let x = stepping::step(state, &trace[from..end], store, sent, out, at);
        state = x.state;
        at = x.at;
        from = end + 1;
    }
    finish(state, out, at)
}

// The lines of a trace that is not too long, over stores of its own.
fn fresh_run(trace: &[u8], out: &mut [u8]) -> usize
    requires { (length trace.now ≤ 65536) × (131072 ≤ length out.old) }
    ensures { LaidWithin 131072 (run_of (begun blank_store blank_store) (lines_of trace.now)) out.old 0 out.new result }
{
    let mut store = [0u8; window::STORE];
    let mut sent = [0u8; window::STORE];
    run(trace, &mut store, &mut sent, out)
}

// The lines of any trace.
fn lines(trace: &[u8], out: &mut [u8]) -> usize
    requires { 131072 ≤ length out.old }
    ensures { LaidWithin 131072 (replay_of trace.now) out.old 0 out.new result }
{
    if LONGEST_TRACE < trace.len() {
        return record_lines::answer_line(out, 0, false, 16, 0);
    }
    fresh_run(trace, out)
}

// Replays a trace of any length into out. Refused with 14 where out is too short for its lines; 131,072 bytes always suffice.
pub fn replay(trace: &[u8], out: &mut [u8]) -> Result<usize, Refusal>
    ensures answer { result ≡ written_of (room_answer (replay_of trace.now) (length out.old)) (replay_of trace.now) }
    ensures bytes { out.new ≡ left_of (room_answer (replay_of trace.now) (length out.old)) (replay_of trace.now) out.old }
    ensures bound { length (replay_of trace.now) ≤ 131072 }
{
    let mut text = [0u8; ROOM];
    let n = lines(trace, &mut text);
    if out.len() < n {
        return Err(Refusal::Room);
    }
    common::put(out, 0, &text[..n]);
    Ok(n)
}
