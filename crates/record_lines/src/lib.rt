// The lines of a replay: an answer, and the full record of an endpoint, laid over a lent buffer; each gives the next free place.
#![tactic(auto)]

ghost use Rattle.std.specs.Prelude.{◌+◌, ◌≤◌, ◌<◌, length, []};
ghost use Rattle.text.specs.Ascii.{ascii};
ghost use Rattle.text.specs.Lines.{between};
ghost use Rattle.text.specs.Within.{LaidWithin};
ghost use Rattle.record_lines.specs.AnswerLine.{answer_line};
ghost use Rattle.record_lines.specs.Record.{number_line, block_line, sender_place, mark_line, hold_line, receiver_place, all_places, sender_fields, receiver_fields, record_text};

use receiver::{Hold, Receiver};
use sender::{BlockPlace, NumberPlace, Sender};

// A key, a number and a newline.
fn entry(out: &mut [u8], at: usize, key: &[u8], n: u64) -> usize
    requires { at + (length key.now + 21) ≤ length out.old }
    ensures { LaidWithin (length key.now + 21) (between key.now n (ascii "\n")) out.old at out.new result }
{
    text::field(out, at, key, n, b"\n")
}

// A place's key: a word, the place's number and the sign before its value.
fn named(out: &mut [u8], at: usize, word: &[u8], i: u64) -> usize
    requires { at + (length word.now + 21) ≤ length out.old }
    ensures { LaidWithin (length word.now + 21) (between word.now i (ascii "=")) out.old at out.new result }
{
    text::field(out, at, word, i, b"=")
}

// A number that others follow.
fn comma(out: &mut [u8], at: usize, n: u64) -> usize
    requires { at + 21 ≤ length out.old }
    ensures { LaidWithin 21 (between [] n (ascii ",")) out.old at out.new result }
{
    text::field(out, at, b"", n, b",")
}

// The last number of a line.
fn last(out: &mut [u8], at: usize, n: u64) -> usize
    requires { at + 21 ≤ length out.old }
    ensures { LaidWithin 21 (between [] n (ascii "\n")) out.old at out.new result }
{
    text::field(out, at, b"", n, b"\n")
}

// The line of an answer; an accepted sweep's has the number of the lost too.
pub fn answer_line(out: &mut [u8], at: usize, sweep: bool, n: u8, lost: u32) -> usize
    requires { at + 30 ≤ length out.old }
    ensures { LaidWithin 30 (answer_line sweep n lost) out.old at out.new result }
{
    if sweep && n == 0 {
        return entry(out, at, b"answer=0,", lost as u64);
    }
    entry(out, at, b"answer=", n as u64)
}

// A place of a data number.
fn number_line(out: &mut [u8], at: usize, i: u64, p: NumberPlace) -> usize
    requires { at + 97 ≤ length out.old }
    ensures { LaidWithin 97 (number_line i p) out.old at out.new result }
{
    let at1 = named(out, at, b"sender.number", i);
    let at2 = comma(out, at1, p.state as u64);
    let at3 = comma(out, at2, p.channel.0);
    last(out, at3, p.tick as u64)
}

// A place of a block that was sent.
fn block_line(out: &mut [u8], at: usize, i: u64, b: BlockPlace) -> usize
    requires { at + 96 ≤ length out.old }
    ensures { LaidWithin 96 (block_line i b) out.old at out.new result }
{
    let at1 = named(out, at, b"sender.block", i);
    let at2 = comma(out, at1, b.state as u64);
    let at3 = comma(out, at2, b.length as u64);
    last(out, at3, b.sends as u64)
}

// The sender's places.
fn sender_places(out: &mut [u8], at: usize, s: Sender) -> usize
    requires { at + 6176 ≤ length out.old }
    ensures { LaidWithin 6176 (all_places (sender_place s) 32) out.old at out.new result }
{
    let mut to = at;
    for i in 0..window::PLACES {
        let mid = number_line(out, to, i as u64, s.numbers[i]);
        to = block_line(out, mid, i as u64, s.blocks[i]);
    }
    to
}

// A place of a data number that may have arrived.
fn mark_line(out: &mut [u8], at: usize, i: u64, m: u8) -> usize
    requires { at + 55 ≤ length out.old }
    ensures { LaidWithin 55 (mark_line i m) out.old at out.new result }
{
    let at1 = named(out, at, b"receiver.mark", i);
    last(out, at1, m as u64)
}

// A place of a block that may be held.
fn hold_line(out: &mut [u8], at: usize, i: u64, h: Hold) -> usize
    requires { at + 76 ≤ length out.old }
    ensures { LaidWithin 76 (hold_line i h) out.old at out.new result }
{
    let at1 = named(out, at, b"receiver.hold", i);
    let at2 = comma(out, at1, h.held as u64);
    last(out, at2, h.length as u64)
}

// The receiver's places.
fn receiver_places(out: &mut [u8], at: usize, r: Receiver) -> usize
    requires { at + 4192 ≤ length out.old }
    ensures { LaidWithin 4192 (all_places (receiver_place r) 32) out.old at out.new result }
{
    let mut to = at;
    for i in 0..window::PLACES {
        let mid = mark_line(out, to, i as u64, r.marks[i]);
        to = hold_line(out, mid, i as u64, r.holds[i]);
    }
    to
}

// The sender's single fields.
fn sender_fields(out: &mut [u8], at: usize, s: Sender) -> usize
    requires { at + 297 ≤ length out.old }
    ensures { LaidWithin 297 (sender_fields s) out.old at out.new result }
{
    let at1 = entry(out, at, b"sender.firstdata=", s.firstdata.0);
    let at2 = entry(out, at1, b"sender.firstchannel=", s.firstchannel.0);
    let at3 = entry(out, at2, b"sender.timeout=", s.timeout as u64);
    let at4 = entry(out, at3, b"sender.logwindow=", s.logwindow as u64);
    let at5 = entry(out, at4, b"sender.low=", s.low.0);
    let at6 = entry(out, at5, b"sender.next=", s.next.0);
    let at7 = entry(out, at6, b"sender.channellow=", s.channellow.0);
    entry(out, at7, b"sender.channelnext=", s.channelnext.0)
}

// The receiver's single fields.
fn receiver_fields(out: &mut [u8], at: usize, r: Receiver) -> usize
    requires { at + 186 ≤ length out.old }
    ensures { LaidWithin 186 (receiver_fields r) out.old at out.new result }
{
    let at1 = entry(out, at, b"receiver.firstdata=", r.firstdata.0);
    let at2 = entry(out, at1, b"receiver.firstchannel=", r.firstchannel.0);
    let at3 = entry(out, at2, b"receiver.base=", r.base.0);
    let at4 = entry(out, at3, b"receiver.end=", r.end.0);
    entry(out, at4, b"receiver.due=", r.due.0)
}

// The full record.
pub fn full_record(out: &mut [u8], at: usize, s: Sender, r: Receiver) -> usize
    requires { at + 10851 ≤ length out.old }
    ensures { LaidWithin 10851 (record_text s r) out.old at out.new result }
{
    let at1 = sender_fields(out, at, s);
    let at2 = sender_places(out, at1, s);
    let at3 = receiver_fields(out, at2, r);
    receiver_places(out, at3, r)
}
