// The listing's line of one number, and of each payload that has several.
#![tactic(auto)]

ghost use Rattle.std.specs.Prelude.{◌++◌, ◌+◌, ◌<◌, ◌≤◌, length};
ghost use Rattle.text.specs.Ascii.{ascii};
ghost use Rattle.text.specs.Decimal.{decimal_of};
ghost use Rattle.text.specs.Lines.{under};
ghost use Rattle.text.specs.Within.{LaidWithin};
ghost use Rattle.wire.specs.Flags.{flag_in, ack_in, vector_in, delay_in};
ghost use Rattle.listing_fields.specs.Fields.{or_dash, ack_text, delay_text, vector_text};

use wire::{Ack, Delay, Vector, bits};

// The number in decimal where it is present, `-` where it is not.
fn number(out: &mut [u8], at: usize, present: bool, n: u64) -> usize
    requires { at + 20 ≤ length out.old }
    ensures { LaidWithin 20 (or_dash present (decimal_of n)) out.old at out.new result }
{
    if present {
        return text::decimal(out, at, n);
    }
    common::lay(out, at, b"-")
}

// A number with a comma behind it.
fn item(out: &mut [u8], at: usize, n: u64) -> usize
    requires { at + 21 ≤ length out.old }
    ensures { LaidWithin 21 (decimal_of n ++ ascii ",") out.old at out.new result }
{
    let end = text::decimal(out, at, n);
    common::lay(out, end, b",")
}

// The line of one number.
pub fn number_line(out: &mut [u8], at: usize, key: &[u8], present: bool, n: u64) -> usize
    requires { (at + 31 ≤ length out.old) × (length key.now ≤ 10) }
    ensures { LaidWithin 31 (under key.now (or_dash present (decimal_of n))) out.old at out.new result }
{
    let after = common::lay(out, at, key);
    let end = number(out, after, present, n);
    common::lay(out, end, b"\n")
}

// The line of one number that is present where the flag at this place of the header is set.
pub fn flagged_line(out: &mut [u8], at: usize, key: &[u8], flags: u16, place: u32, n: u64) -> usize
    requires { (at + 31 ≤ length out.old) × (length key.now ≤ 10) × (place < 16) }
    ensures { LaidWithin 31 (under key.now (or_dash (flag_in place flags) (decimal_of n))) out.old at out.new result }
{
    number_line(out, at, key, bits::flag(flags, place), n)
}

// The numbers of the ACK payload.
fn ack_text(out: &mut [u8], at: usize, a: Ack) -> usize
    requires { at + 104 ≤ length out.old }
    ensures { LaidWithin 104 (ack_text a) out.old at out.new result }
{
    let at1 = item(out, at, a.number as u64);
    let at2 = item(out, at1, a.time as u64);
    let at3 = item(out, at2, a.gap as u64);
    let at4 = item(out, at3, a.count as u64);
    text::decimal(out, at4, a.scale as u64)
}

// The numbers of the DelayAckInfo payload.
fn delay_text(out: &mut [u8], at: usize, y: Delay) -> usize
    requires { at + 41 ≤ length out.old }
    ensures { LaidWithin 41 (delay_text y) out.old at out.new result }
{
    let at1 = item(out, at, y.most as u64);
    text::decimal(out, at1, y.timeout as u64)
}

// The numbers of the ACKVEC payload.
fn vector_text(out: &mut [u8], at: usize, x: Vector) -> usize
    requires { at + 62 ≤ length out.old }
    ensures { LaidWithin 62 (vector_text x) out.old at out.new result }
{
    let at1 = item(out, at, x.base as u64);
    let at2 = item(out, at1, x.size as u64);
    number(out, at2, x.timed, x.time as u64)
}

// The line of the ACK payload.
pub fn ack_line(out: &mut [u8], at: usize, flags: u16, a: Ack) -> usize
    requires { at + 109 ≤ length out.old }
    ensures { LaidWithin 109 (under (ascii "ack=") (or_dash (ack_in flags) (ack_text a))) out.old at out.new result }
{
    if bits::flag(flags, wire::ACK) {
        let after = common::lay(out, at, b"ack=");
        let end = ack_text(out, after, a);
        return common::lay(out, end, b"\n");
    }
    common::lay(out, at, b"ack=-\n")
}

// The line of the DelayAckInfo payload.
pub fn delay_line(out: &mut [u8], at: usize, flags: u16, y: Delay) -> usize
    requires { at + 48 ≤ length out.old }
    ensures { LaidWithin 48 (under (ascii "delay=") (or_dash (delay_in flags) (delay_text y))) out.old at out.new result }
{
    if bits::flag(flags, wire::DELAYACKINFO) {
        let after = common::lay(out, at, b"delay=");
        let end = delay_text(out, after, y);
        return common::lay(out, end, b"\n");
    }
    common::lay(out, at, b"delay=-\n")
}

// The line of the ACKVEC payload.
pub fn vector_line(out: &mut [u8], at: usize, flags: u16, x: Vector) -> usize
    requires { at + 67 ≤ length out.old }
    ensures { LaidWithin 67 (under (ascii "vec=") (or_dash (vector_in flags) (vector_text x))) out.old at out.new result }
{
    if bits::flag(flags, wire::ACKVEC) {
        let after = common::lay(out, at, b"vec=");
        let end = vector_text(out, after, x);
        return common::lay(out, end, b"\n");
    }
    common::lay(out, at, b"vec=-\n")
}
