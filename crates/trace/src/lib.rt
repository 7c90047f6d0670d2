// A counter's morning as text (document 02, W1): four head lines, then three lines for each event. Here stand the numbers of it, what a reader keeps
// between two lines, and in specs/ what a trace reads as and is written as. `trace_reading` and `trace_data` read one, line by line, and
// `trace_head` and `trace_writing` write one into lent buffers. Nothing here knows an endpoint.
#![tactic(auto)]

ghost use Rattle.std.specs.Prelude.{◌≡◌};
ghost use Rattle.trace.specs.Kinds.{carries};
ghost use Rattle.trace.specs.Read.{fresh_cursor, due_of, behind_data};

// The first line, which the reader compares and the writer writes, and the second.
pub const FORMAT: [u8; 20] = *b"format=counter-trace";

pub const EDITION: [u8; 9] = *b"edition=1";

// Which line is due. A number, and no enum, since callers may hand in a cursor with any and `next` leaves one with another as it is.
pub const FORMAT_DUE: u8 = 0;

pub const EDITION_DUE: u8 = 1;

pub const FIRST_DUE: u8 = 2;

pub const TIMEOUT_DUE: u8 = 3;

pub const TICK_DUE: u8 = 4;

pub const KIND_DUE: u8 = 5;

pub const DATA_DUE: u8 = 6;

// No line is due any more, since one of an event was refused.
pub const BROKEN: u8 = 7;

// No line is due any more, since one of the head was refused.
pub const HEADLESS: u8 = 8;

// The kinds of event; 0 is none. Numbers, and no enum, since callers may hand in any and are answered by a refusal.
pub const IN: u8 = 1;

pub const SEND: u8 = 2;

pub const RESEND: u8 = 3;

pub const TAKE: u8 = 4;

pub const SWEEP: u8 = 5;

pub const ACKNOWLEDGE: u8 = 6;

// The byte that ends a line.
pub const NEWLINE: u8 = b'\n';

// The highest number in a trace.
pub const HIGHEST: u64 = u32::MAX as u64;

// What stands between two lines: which line is due, and what the lines so far said.
#[derive(Clone, Copy)]
pub struct Cursor {
    // Which line is due, or why none is.
    pub due: u8,
    // The first data number.
    pub firstdata: u32,
    // The first channel number.
    pub firstchannel: u32,
    // The loss timeout.
    pub timeout: u32,
    // The tick of the event that is being read, or of the last.
    pub tick: u32,
    // The kind of the event that is being read, or of the last.
    pub kind: u8,
}

// Does an event of this kind have data?
#[tactic(auto, unfolding(crate::specs::Kinds::carries))]
pub fn has_data(kind: u8) -> bool
    ensures { result ≡ carries kind }
{
    matches!(kind, IN | SEND)
}

// The cursor before the first line.
pub fn begin() -> Cursor
    ensures { result ≡ fresh_cursor }
{
    Cursor {
        due: FORMAT_DUE,
        firstdata: 0,
        firstchannel: 0,
        timeout: 0,
        tick: 0,
        kind: 0,
    }
}

// The cursor with another line due.
pub fn waiting(c: Cursor, due: u8) -> Cursor
    ensures { result ≡ due_of c due }
{
    Cursor { due, ..c }
}

// The cursor behind a line of data: the next tick is due where `trace_data::read` took the line, and no line any more where it was refused. Where no data
// is due, the cursor stays as it is.
#[tactic(auto, unfolding(crate::specs::Read::behind_data))]
pub fn behind_data(c: Cursor, taken: bool) -> Cursor
    ensures { result ≡ behind_data c taken }
{
    if c.due != DATA_DUE {
        return c;
    }
    waiting(c, if taken { TICK_DUE } else { BROKEN })
}
