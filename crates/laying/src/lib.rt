// Laying the payloads of a packet, each where it is flagged.
#![tactic(auto)]

ghost use Rattle.std.specs.Prelude.{◌≡◌, false, [], ◌∷◌, ◌++◌, ◌+◌, ◌^◌, ◌≤◌, ◌<◌, length, leb};
ghost use Rattle.common.specs.Laid.{Laid};
ghost use Rattle.wire.specs.Flags.{both};
ghost use Rattle.wire.specs.Write.{word_bytes, three_bytes, given, ack_bytes, ack_wide, delay_bytes, stamp_bytes, vector_bytes, vector_wide};

use wire::{Ack, Delay, Vector, bits};

// Lays a 16-bit number.
pub fn put_word(out: &mut [u8], at: usize, n: u16) -> usize
    requires { at + 2 ≤ length out.old }
    ensures { Laid out.old at (word_bytes n) out.new result }
{
    let high = common::lay_byte(out, at, (n % 256) as u8);
    common::lay_byte(out, high, (n / 256) as u8)
}

// Lays a 24-bit number.
pub fn put_three(out: &mut [u8], at: usize, n: u32) -> usize
    requires { (at + 3 ≤ length out.old) × (n < 2 ^ 24) }
    ensures { Laid out.old at (three_bytes n) out.new result }
{
    let middle = common::lay_byte(out, at, (n % 256) as u8);
    let high = common::lay_byte(out, middle, (n / 256 % 256) as u8);
    common::lay_byte(out, high, (n / 65536) as u8)
}

// Lays a byte where it is flagged. This and the next are one `if` each over a call that differs; a function over both would take a closure that
// writes, with its contract.
pub fn put_byte_if(out: &mut [u8], at: usize, flag: bool, b: u8) -> usize
    requires { at + length (given flag (b ∷ [])) ≤ length out.old }
    ensures { Laid out.old at (given flag (b ∷ [])) out.new result }
{
    if flag {
        common::lay_byte(out, at, b)
    } else {
        at
    }
}

// Lays a 16-bit number where it is flagged.
pub fn put_word_if(out: &mut [u8], at: usize, flag: bool, n: u16) -> usize
    requires { at + length (given flag (word_bytes n)) ≤ length out.old }
    ensures { Laid out.old at (given flag (word_bytes n)) out.new result }
{
    if flag { put_word(out, at, n) } else { at }
}

// Lays the ACK payload where it is flagged.
pub fn put_ack(out: &mut [u8], at: usize, flag: bool, ack: Ack, additions: &[u8]) -> usize
    requires additions_in_bounds { at + length (given flag (ack_bytes ack additions.now)) ≤ length out.old }
    requires additions_value { both flag (ack_wide ack (length additions.now)) ≡ false }
    ensures { Laid out.old at (given flag (ack_bytes ack additions.now)) out.new result }
{
    if flag {
        let time = put_word(out, at, ack.number);
        let gap = put_three(out, time, ack.time);
        let halves = common::lay_byte(out, gap, ack.gap);
        let rest = common::lay_byte(out, halves, bits::halves(ack.count, ack.scale));
        common::lay(out, rest, additions)
    } else {
        at
    }
}

// Lays the DelayAckInfo payload where it is flagged.
pub fn put_delay(out: &mut [u8], at: usize, flag: bool, delay: Delay) -> usize
    requires { at + length (given flag (delay_bytes delay)) ≤ length out.old }
    ensures { Laid out.old at (given flag (delay_bytes delay)) out.new result }
{
    if flag {
        let timeout = common::lay_byte(out, at, delay.most);
        put_word(out, timeout, delay.timeout)
    } else {
        at
    }
}

// Lays a vector's time stamp and gap where they are present.
pub fn put_stamp(out: &mut [u8], at: usize, vector: Vector) -> usize
    requires vector_in_bounds { at + length (stamp_bytes vector) ≤ length out.old }
    requires time_value { both vector.timed (leb (2 ^ 24) vector.time) ≡ false }
    ensures { Laid out.old at (stamp_bytes vector) out.new result }
{
    if vector.timed {
        let gap = put_three(out, at, vector.time);
        common::lay_byte(out, gap, vector.gap)
    } else {
        at
    }
}

// Lays the ACKVEC payload where it is flagged.
pub fn put_vector(out: &mut [u8], at: usize, flag: bool, vector: Vector, coded: &[u8]) -> usize
    requires coded_in_bounds { at + length (given flag (vector_bytes vector coded.now)) ≤ length out.old }
    requires coded_value { both flag (vector_wide vector (length coded.now)) ≡ false }
    ensures { Laid out.old at (given flag (vector_bytes vector coded.now)) out.new result }
{
    if flag {
        let size = put_word(out, at, vector.base);
        let stamp = common::lay_byte(out, size, bits::size_byte(vector.size, vector.timed));
        let rest = put_stamp(out, stamp, vector);
        common::lay(out, rest, coded)
    } else {
        at
    }
}

// Lays the DataBody payload where it is flagged.
pub fn put_body(out: &mut [u8], at: usize, flag: bool, channel: u16, body: &[u8]) -> usize
    requires { at + length (given flag (word_bytes channel ++ body.now)) ≤ length out.old }
    ensures { Laid out.old at (given flag (word_bytes channel ++ body.now)) out.new result }
{
    if flag {
        let rest = put_word(out, at, channel);
        common::lay(out, rest, body)
    } else {
        at
    }
}
