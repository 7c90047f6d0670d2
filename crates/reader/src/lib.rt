// Reading a datagram. Offsets come first, and the packet's struct is built once, at the end.
#![tactic(auto)]

ghost use Rattle.std.specs.Prelude.{◌≡◌, cond, not, ◌+◌, ◌%◌, ◌≤◌, ◌<◌, length, ltb};
ghost use Rattle.wire.specs.Frame.{swapped, byte_at, word_at};
ghost use Rattle.wire.specs.Flags.{both, flag_in};
ghost use Rattle.wire.specs.Layout.{sized, ack_at, no_ack, delay_at, no_delay, vector_at, no_vector, vector_size, stamp_size, timed_at, values_of, Places};
ghost use Rattle.wire.specs.Read.{read_payloads, read_packet, read_of};

use common::Refusal;
use wire::{Ack, Delay, Packet, Values, Vector, bits};

// The ACK payload, which stands behind the header.
fn read_ack(flag: bool, d: &[u8]) -> Ack
    requires { 8 ≤ length d.now }
    ensures { result ≡ cond flag (ack_at (swapped d.now) 3) no_ack }
{
    if flag {
        let number = parts::word_at(d, 3);
        let time = parts::three_at(d, 5);
        let gap = parts::byte_at(d, 8);
        let halves = parts::byte_at(d, 9);
        let count = bits::low_four(halves);
        let scale = bits::high_four(halves);
        Ack {
            number,
            time,
            gap,
            count,
            scale,
        }
    } else {
        Ack::default()
    }
}

// The DelayAckInfo payload at a place.
fn read_delay(flag: bool, d: &[u8], at: usize) -> Delay
    requires { (8 ≤ length d.now) × (at ≤ 1000) }
    ensures { result ≡ cond flag (delay_at (swapped d.now) at) no_delay }
{
    if flag {
        let most = parts::byte_at(d, at);
        let timeout = parts::word_at(d, at + 1);
        Delay { most, timeout }
    } else {
        Delay::default()
    }
}

// The ACKVEC payload at a place.
fn read_vector(flag: bool, d: &[u8], at: usize) -> Vector
    requires { (8 ≤ length d.now) × (at ≤ 1000) }
    ensures { result ≡ cond flag (vector_at (swapped d.now) at) no_vector }
{
    if flag {
        let base = parts::word_at(d, at);
        let mixed = parts::byte_at(d, at + 2);
        let size = bits::low_seven(mixed);
        let timed = bits::high_bit(mixed);
        let time = parts::three_if(timed, d, at + 3);
        let gap = parts::byte_if(timed, d, at + 6);
        Vector {
            base,
            size,
            timed,
            time,
            gap,
        }
    } else {
        Vector::default()
    }
}

// One past the ACK payload.
fn ack_end(flag: bool, d: &[u8]) -> usize
    requires { 8 ≤ length d.now }
    ensures { (result ≡ 3 + sized flag (7 + byte_at (swapped d.now) 9 % 16)) × (result ≤ 25) }
{
    if flag {
        let count = bits::low_four(parts::byte_at(d, 9));
        10 + count as usize
    } else {
        3
    }
}

// One past the ACKVEC payload that begins at a place.
fn vector_end(flag: bool, d: &[u8], at: usize) -> usize
    requires { (8 ≤ length d.now) × (at ≤ 1000) }
    ensures { (result ≡ at + sized flag (vector_size (swapped d.now) at)) × (result ≤ at + 134) }
{
    if flag {
        let mixed = parts::byte_at(d, at + 2);
        let size = bits::low_seven(mixed);
        let stamp = bits::size_if(bits::high_bit(mixed), 4);
        at + (3 + stamp + size as usize)
    } else {
        at
    }
}

// Where the vector bytes of the ACKVEC payload at a place stand.
fn vector_place(flag: bool, d: &[u8], at: usize) -> usize
    requires { (8 ≤ length d.now) × (at ≤ 1000) }
    ensures { result ≡ sized flag (at + 3 + stamp_size (timed_at (swapped d.now) at)) }
{
    if flag {
        let stamp = bits::size_if(bits::high_bit(parts::byte_at(d, at + 2)), 4);
        at + 3 + stamp
    } else {
        0
    }
}

// Do bytes stand behind the last payload of a packet without DATA?
fn left_over(content: bool, at: usize, end: usize) -> bool
    ensures { result ≡ both (not content) (ltb at end) }
{
    !content && at < end
}

// One past a payload of this size that begins at a place, where the flag at that place of the header is set; else the place itself.
fn step(at: usize, flags: u16, place: u32, size: usize) -> usize
    requires { (at ≤ 1000) × (place < 16) × (size ≤ 10) }
    ensures { (result ≡ at + sized (flag_in place flags) size) × (result ≤ at + size) }
{
    at + bits::size_if(bits::flag(flags, place), size)
}

// The values of a packet whose payloads begin at these places.
fn values_at(
    d: &[u8],
    header: u16,
    flags: u16,
    at1: usize,
    at2: usize,
    at3: usize,
    at4: usize,
    at5: usize,
    at6: usize,
) -> Values
    requires in_bounds { (8 ≤ length d.now) × (at2 ≤ 1000) × (at3 ≤ 1000) × (at4 ≤ 1000) × (at5 ≤ 1000) × (at6 ≤ 1000) }
    requires header_value { header ≡ word_at (swapped d.now) 1 }
    requires places { Places (swapped d.now) flags at1 at2 at3 at4 at5 at6 }
    ensures { result ≡ values_of (swapped d.now) flags }
{
    let logwindow = bits::logwindow_of(header);
    let ack = read_ack(bits::flag(flags, wire::ACK), d);
    let overhead = parts::byte_if(bits::flag(flags, wire::OVERHEADSIZE), d, at1);
    let delay = read_delay(bits::flag(flags, wire::DELAYACKINFO), d, at2);
    let aoa = parts::word_if(bits::flag(flags, wire::AOA), d, at3);
    let content = bits::flag(flags, wire::DATA);
    let number = parts::word_if(content, d, at4);
    let vector = read_vector(bits::flag(flags, wire::ACKVEC), d, at5);
    let channel = parts::word_if(content, d, at6);
    Values {
        flags,
        logwindow,
        ack,
        overhead,
        delay,
        aoa,
        number,
        vector,
        channel,
    }
}

// The payloads of a packet that goes up to place end: refused with 3 or 6, or taken apart.
fn read_payloads(d: &[u8], end: usize, header: u16, flags: u16) -> Result<Option<Packet>, Refusal>
    requires in_bounds { (8 ≤ length d.now) × (end ≤ 1232) }
    requires header_value { header ≡ word_at (swapped d.now) 1 }
    ensures { result ≡ read_payloads (swapped d.now) flags end }
{
    let at1 = ack_end(bits::flag(flags, wire::ACK), d);
    let at2 = step(at1, flags, wire::OVERHEADSIZE, 1);
    let at3 = step(at2, flags, wire::DELAYACKINFO, 3);
    let at4 = step(at3, flags, wire::AOA, 2);
    let at5 = step(at4, flags, wire::DATA, 2);
    let isvector = bits::flag(flags, wire::ACKVEC);
    let at6 = vector_end(isvector, d, at5);
    let at7 = step(at6, flags, wire::DATA, 2);
    if end < at7 {
        return Err(Refusal::PastTheEnd);
    }
    let content = bits::flag(flags, wire::DATA);
    if left_over(content, at7, end) {
        return Err(Refusal::LeftOver);
    }
    let values = values_at(d, header, flags, at1, at2, at3, at4, at5, at6);
    let additions = bits::size_if(bits::flag(flags, wire::ACK), 10);
    let vector = vector_place(isvector, d, at5);
    let body = bits::size_if(content, at7);
    let bytes = bits::size_if(content, end - at7);
    Ok(Some(Packet {
        values,
        additions,
        vector,
        body,
        bytes,
    }))
}

// A packet of type 0 that goes up to place end: refused with 3 (header), 4, 5, 3 (payloads), 6, or taken apart.
fn read_packet(d: &[u8], end: usize) -> Result<Option<Packet>, Refusal>
    requires { (8 ≤ length d.now) × (end ≤ 1232) }
    ensures { result ≡ read_packet (swapped d.now) end }
{
    if end < 3 {
        return Err(Refusal::PastTheEnd);
    }
    let header = parts::word_at(d, 1);
    let flags = bits::flags_of(header);
    if bits::has_others(flags) {
        return Err(Refusal::OtherFlag);
    }
    if bits::both_flagged(
        bits::flag(flags, wire::ACK),
        bits::flag(flags, wire::ACKVEC),
    ) {
        return Err(Refusal::TwoAcknowledgements);
    }
    read_payloads(d, end, header, flags)
}

// Reads one datagram of any length. Refused with 1, 2, 3 (header), 4, 5, 3 (payloads), 6, in this order.
pub fn read(d: &[u8]) -> Result<Option<Packet>, Refusal>
    ensures { result ≡ read_of d.now }
{
    let n = d.len();
    if n < wire::SHORTEST {
        return Err(Refusal::Length);
    }
    if wire::LONGEST_DATAGRAM < n {
        return Err(Refusal::Length);
    }
    let prefix = parts::byte_at(d, 0);
    if bits::reserved(prefix) {
        return Err(Refusal::Prefix);
    }
    let kind = bits::type_of(prefix);
    if kind == 8 {
        return Ok(None);
    }
    if kind != 0 {
        return Err(Refusal::Prefix);
    }
    let end = n - bits::dropped(prefix);
    read_packet(d, end)
}
