// Do the values of a packet fit their fields, and how long are its packet and its datagram?
#![tactic(auto)]

ghost use Rattle.std.specs.Prelude.{◌≡◌, false, ◌+◌, ◌-◌, ◌^◌, ◌≤◌, length, leb};
ghost use Rattle.common.specs.Answer.{answered_of};
ghost use Rattle.common.specs.Order.{first};
ghost use Rattle.wire.specs.Flags.{ack_in, data_in, vector_in, both};
ghost use Rattle.wire.specs.Layout.{sized};
ghost use Rattle.wire.specs.Write.{ack_wide, vector_wide, packet_bytes, value_tests};

use common::Refusal;
use wire::{Ack, Values, Vector, bits};

// Is the ACK payload flagged, and is one of its values wider than its field, or its count not its additions' number?
fn ack_wide(flag: bool, ack: Ack, n: usize) -> bool
    ensures { result ≡ both flag (ack_wide ack n) }
{
    flag && (16777216 <= ack.time || 16 <= ack.count || 16 <= ack.scale || ack.count as usize != n)
}

// Is the ACKVEC payload flagged, and is one of its values wider than its field, or its size not its bytes' number?
fn vector_wide(flag: bool, vector: Vector, n: usize) -> bool
    ensures { result ≡ both flag (vector_wide vector n) }
{
    flag && (128 <= vector.size
        || stamp_wide(vector.timed, vector.time)
        || vector.size as usize != n)
}

// Is a time stamp present, and wider than its field?
fn stamp_wide(timed: bool, time: u32) -> bool
    ensures { result ≡ both timed (leb (2 ^ 24) time) }
{
    timed && 16777216 <= time
}

// The first refusal of some values with so many additions and vector bytes: 4, 5 or 10.
pub fn judge_values(v: Values, additions: usize, vector: usize) -> Result<(), Refusal>
    ensures { result ≡ answered_of (first (value_tests v additions vector)) }
{
    if bits::has_others(v.flags) {
        return Err(Refusal::OtherFlag);
    }
    let isack = bits::flag(v.flags, wire::ACK);
    let isvector = bits::flag(v.flags, wire::ACKVEC);
    if bits::both_flagged(isack, isvector) {
        return Err(Refusal::TwoAcknowledgements);
    }
    if 16 <= v.logwindow {
        return Err(Refusal::TooWide);
    }
    let ack = v.ack;
    if ack_wide(isack, ack, additions) {
        return Err(Refusal::TooWide);
    }
    let coded = v.vector;
    if vector_wide(isvector, coded, vector) {
        return Err(Refusal::TooWide);
    }
    Ok(())
}

// The size of a payload with a fixed part and n bytes of its own, where it is flagged.
fn size_with(flag: bool, fixed: usize, n: usize) -> usize
    requires { (fixed ≤ 10) × (sized flag n ≤ 1232) }
    ensures { (result ≡ sized flag (fixed + n)) × (result ≤ fixed + 1232) }
{
    if flag { fixed + n } else { 0 }
}

// How many bytes the packet of these values has.
pub fn packet_size(v: Values, additions: &[u8], vector: &[u8], body: &[u8]) -> usize
    requires additions_value { both (ack_in v.flags) (ack_wide v.ack (length additions.now)) ≡ false }
    requires vector_value { both (vector_in v.flags) (vector_wide v.vector (length vector.now)) ≡ false }
    requires body_bound { sized (data_in v.flags) (length body.now) ≤ 1232 }
    ensures { (result ≡ length (packet_bytes v additions.now vector.now body.now)) × (result ≤ 5000) }
{
    let coded = v.vector;
    let content = bits::flag(v.flags, wire::DATA);
    let ack = size_with(bits::flag(v.flags, wire::ACK), 7, additions.len());
    let overhead = bits::size_if(bits::flag(v.flags, wire::OVERHEADSIZE), 1);
    let delay = bits::size_if(bits::flag(v.flags, wire::DELAYACKINFO), 3);
    let aoa = bits::size_if(bits::flag(v.flags, wire::AOA), 2);
    let number = bits::size_if(content, 2);
    let stamp = bits::size_if(coded.timed, 4);
    let list = size_with(bits::flag(v.flags, wire::ACKVEC), 3 + stamp, vector.len());
    let block = size_with(content, 2, body.len());
    2 + ack + overhead + delay + aoa + number + list + block
}

// How many bytes the datagram of a packet of k bytes has: a short packet is padded to 7.
pub fn datagram_size(k: usize) -> usize
    requires { k ≤ 5000 }
    ensures { result ≡ 1 + k + (7 - k) }
{
    1 + k.max(7)
}
