// Is a receiver's record consistent? Places are looked at in their own order, and a block's place again only near the end of the full range.
#![tactic(auto)]

ghost use Rattle.std.specs.Prelude.{◌≡◌, not};
ghost use Rattle.common.specs.Every.{all_below};
ghost use Rattle.receiver.specs.Consistent.{bounds_fit, mark_fits, hold_fits, consistent_of};
ghost use Rattle.receiver_checking.specs.Checking.{held_low};

use numbers::DataNumber;
use receiver::{Hold, Receiver};

// The longest block that is held, as a place has its length.
const LONGEST_HELD: u16 = window::PLACE as u16;

// Do the firsts, base, end and due lie in their ranges?
#[tactic(auto, unfolding(receiver::specs::Consistent::bounds_fit, common::specs::Every::every))]
fn bounds_fit(firstdata: u64, firstchannel: u64, base: u64, end: u64, due: u64) -> bool
    ensures { result ≡ bounds_fit firstdata firstchannel base end due }
{
    firstdata <= numbers::FIRST
        && firstchannel <= numbers::FIRST
        && firstdata <= base
        && base <= numbers::PAST
        && firstdata <= end
        && end <= numbers::PAST
        && firstchannel <= due
        && due <= numbers::PAST
}

// Is what stands at a number's place neither a mark below end nor none? The number lies `past` numbers past base, and `span`
// numbers from base on lie below end.
fn mark_wrong(m: u8, past: u8, span: u8) -> bool
    ensures { result ≡ not (mark_fits m past span) }
{
    (1 < m) | ((m == 1) & (span <= past))
}

// Is what stands at a block's place neither a block that can be (say block 0: its number is not looked at) nor nothing at all?
fn hold_wrong(h: Hold) -> bool
    ensures { result ≡ not (hold_fits h 0) }
{
    let held = h.held == 1;
    (held & (LONGEST_HELD < h.length)) | (!held & ((h.held != 0) | (h.length != 0)))
}

// Is a block held that is not among the first `room` blocks from due on? Where room is the whole window, none can be.
fn beyond(holds: [Hold; 32], due: u64, room: u8) -> bool
    ensures { result ≡ not (all_below (held_low 32 holds due room) 32) }
{
    if window::WHOLE <= room {
        return false;
    }
    let mut wrong = false;
    for (k, h) in holds.iter().enumerate() {
        wrong = wrong | ((h.held == 1) & (room <= window::past(k, due)));
    }
    wrong
}

// Is the record consistent? No branch leaves the loops, so that many places are looked at together.
pub fn consistent(r: Receiver) -> bool
    ensures { result ≡ consistent_of 32 32 r }
{
    let base = r.base.0;
    let end = r.end.0;
    let due = r.due.0;
    if !bounds_fit(r.firstdata.0, r.firstchannel.0, base, end, due) {
        return false;
    }
    let at = window::place(r.base);
    if r.marks[at] == 1 {
        return false;
    }
    if base + DataNumber::WINDOW < end {
        return false;
    }
    let span = window::count(base, end);
    let mut wrong = false;
    // Every mark lies below end.
    for (i, m) in r.marks.iter().enumerate() {
        wrong = wrong | mark_wrong(*m, window::past(i, base), span);
    }
    // Every place for a block holds one that can be, or nothing.
    // An index counted here stays: over the holds' iterator the loop is no longer one of vectors, and a take has 614 instructions, not 481.
    let mut k: usize = 0;
    while k < window::PLACES {
        let h = r.holds[k];
        wrong = wrong | hold_wrong(h);
        k += 1;
    }
    if wrong {
        return false;
    }
    // No block above the full range is held.
    if beyond(r.holds, due, window::count(due, numbers::PAST)) {
        return false;
    }
    // Where end lies above base, the number before it is marked.
    if base < end {
        let at = window::place(DataNumber(end - 1));
        return r.marks[at] == 1;
    }
    true
}
