// The twelve lines of a packet that was read.
#![tactic(auto)]

ghost use Rattle.std.specs.Prelude.{◌+◌, ◌≤◌, length};
ghost use Rattle.text.specs.Within.{LaidWithin};
ghost use Rattle.listing_packet.specs.Lines.{packet_lines};
ghost use Rattle.listing_packet.specs.Parts.{head_lines, middle_lines, tail_lines};

use wire::{Packet, Values};

// The lines up to logwindow=.
fn head_lines(out: &mut [u8], at: usize, v: Values) -> usize
    requires { at + 124 ≤ length out.old }
    ensures { LaidWithin 124 (head_lines v) out.old at out.new result }
{
    let at1 = listing_fields::number_line(out, at, b"answer=", true, 0);
    let at2 = listing_fields::number_line(out, at1, b"type=", true, 0);
    let at3 = listing_fields::number_line(out, at2, b"flags=", true, v.flags as u64);
    listing_fields::number_line(out, at3, b"logwindow=", true, v.logwindow as u64)
}

// The lines from ack= to aoa=.
fn middle_lines(out: &mut [u8], at: usize, v: Values) -> usize
    requires { at + 219 ≤ length out.old }
    ensures { LaidWithin 219 (middle_lines v) out.old at out.new result }
{
    let at1 = listing_fields::ack_line(out, at, v.flags, v.ack);
    let at2 = listing_fields::flagged_line(
        out,
        at1,
        b"overhead=",
        v.flags,
        wire::OVERHEADSIZE,
        v.overhead as u64,
    );
    let at3 = listing_fields::delay_line(out, at2, v.flags, v.delay);
    listing_fields::flagged_line(out, at3, b"aoa=", v.flags, wire::AOA, v.aoa as u64)
}

// The lines from data= on.
fn tail_lines(out: &mut [u8], at: usize, v: Values, bytes: usize) -> usize
    requires { at + 160 ≤ length out.old }
    ensures { LaidWithin 160 (tail_lines v bytes) out.old at out.new result }
{
    let at1 = listing_fields::flagged_line(out, at, b"data=", v.flags, wire::DATA, v.number as u64);
    let at2 = listing_fields::vector_line(out, at1, v.flags, v.vector);
    let at3 = listing_fields::flagged_line(
        out,
        at2,
        b"channel=",
        v.flags,
        wire::DATA,
        v.channel as u64,
    );
    listing_fields::flagged_line(out, at3, b"bytes=", v.flags, wire::DATA, bytes as u64)
}

// The lines of a packet, from the first place on.
pub fn lines(out: &mut [u8], p: Packet) -> usize
    requires { 503 ≤ length out.old }
    ensures { LaidWithin 503 (packet_lines p) out.old 0 out.new result }
{
    let at1 = head_lines(out, 0, p.values);
    let at2 = middle_lines(out, at1, p.values);
    tail_lines(out, at2, p.values, p.bytes)
}
