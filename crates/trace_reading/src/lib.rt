// Reading a trace, line by line, with a cursor by value between the lines. A line is what stands between two newlines, or behind the last.
// `trace::begin` is the cursor before the first. Where data is due `trace_data::read` reads the line, and `trace::behind_data` says what is
// due behind it; `next` reads any other.
#![tactic(auto)]

ghost use Rattle.std.specs.Prelude.{◌≡◌, cond};
ghost use Rattle.trace.specs.Words.{same};
ghost use Rattle.trace.specs.Kinds.{kind_of};
ghost use Rattle.trace.specs.Read.{headless, due_of, at_first, at_timeout, at_tick, at_kind, next_of};

use trace::Cursor;

// The kind that a line names, 0 where it names none.
#[tactic(auto, unfolding(trace::specs::Kinds::kind_of, common::specs::Order::first))]
fn kind_named(line: &[u8]) -> u8
    ensures { result ≡ kind_of line.now }
{
    if trace_words::equals(line, b"kind=in") {
        trace::IN
    } else if trace_words::equals(line, b"kind=send") {
        trace::SEND
    } else if trace_words::equals(line, b"kind=resend") {
        trace::RESEND
    } else if trace_words::equals(line, b"kind=take") {
        trace::TAKE
    } else if trace_words::equals(line, b"kind=sweep") {
        trace::SWEEP
    } else if trace_words::equals(line, b"kind=ack") {
        trace::ACKNOWLEDGE
    } else {
        0
    }
}

// A line that must be one fixed byte string.
fn at_fixed(c: Cursor, line: &[u8], words: &[u8], due: u8) -> Cursor
    ensures { result ≡ due_of c (cond (same line.now words.now) due headless) }
{
    let next = if trace_words::equals(line, words) {
        due
    } else {
        trace::HEADLESS
    };
    trace::waiting(c, next)
}

// The line `first=`.
#[tactic(auto, unfolding(trace::specs::Read::at_first))]
fn at_first(c: Cursor, line: &[u8]) -> Cursor
    ensures { result ≡ at_first c line.now }
{
    match trace_numbers::first_numbers(line) {
        Some((firstdata, firstchannel)) => Cursor {
            due: trace::TIMEOUT_DUE,
            firstdata,
            firstchannel,
            ..c
        },
        None => trace::waiting(c, trace::HEADLESS),
    }
}

// The line `timeout=`.
#[tactic(auto, unfolding(trace::specs::Read::at_timeout))]
fn at_timeout(c: Cursor, line: &[u8]) -> Cursor
    ensures { result ≡ at_timeout c line.now }
{
    match trace_numbers::number_under(line, b"timeout=") {
        Some(timeout) => Cursor {
            due: trace::TICK_DUE,
            timeout,
            ..c
        },
        None => trace::waiting(c, trace::HEADLESS),
    }
}

// The line `tick=`. Key, field, next line and refusal all differ from `at_timeout`'s, so one function for both would be no plainer.
#[tactic(auto, unfolding(trace::specs::Read::at_tick))]
fn at_tick(c: Cursor, line: &[u8]) -> Cursor
    ensures { result ≡ at_tick c line.now }
{
    match trace_numbers::number_under(line, b"tick=") {
        Some(tick) => Cursor {
            due: trace::KIND_DUE,
            tick,
            ..c
        },
        None => trace::waiting(c, trace::BROKEN),
    }
}

// The line `kind=`.
#[tactic(auto, unfolding(trace::specs::Read::at_kind))]
fn at_kind(c: Cursor, line: &[u8]) -> Cursor
    ensures { result ≡ at_kind c line.now }
{
    match kind_named(line) {
        0 => trace::waiting(c, trace::BROKEN),
        kind => Cursor {
            due: trace::DATA_DUE,
            kind,
            ..c
        },
    }
}

// Reads one line, without its newline. Where data is due it changes nothing: `trace_data::read` reads that line. A line that is not the one due, or is badly
// written, leaves BROKEN due, or HEADLESS in the head; from then on no line changes anything.
#[tactic(auto, unfolding(trace::specs::Read::next_of, trace::specs::Read::at_format, trace::specs::Read::at_edition))]
pub fn next(c: Cursor, line: &[u8]) -> Cursor
    ensures { result ≡ next_of c line.now }
{
    match c.due {
        trace::FORMAT_DUE => at_fixed(c, line, &trace::FORMAT, trace::EDITION_DUE),
        trace::EDITION_DUE => at_fixed(c, line, &trace::EDITION, trace::FIRST_DUE),
        trace::FIRST_DUE => at_first(c, line),
        trace::TIMEOUT_DUE => at_timeout(c, line),
        trace::TICK_DUE => at_tick(c, line),
        trace::KIND_DUE => at_kind(c, line),
        _ => c,
    }
}
