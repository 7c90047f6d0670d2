// A packet as a line of a script gives it, for the test programs: each value under its key. What a line does not give is 0.
#![tactic(auto)]

ghost use Rattle.std.specs.Prelude.{◌≤◌, length};

use wire::{Ack, Delay, Values, Vector};

// The ACK.
fn ack(line: &[u8]) -> Ack {
    Ack {
        number: script::word(line, b"ack="),
        time: script::long(line, b"acktime="),
        gap: script::byte(line, b"ackgap="),
        count: script::byte(line, b"count="),
        scale: script::byte(line, b"scale="),
    }
}

// The DelayAckInfo.
fn delay(line: &[u8]) -> Delay {
    Delay {
        most: script::byte(line, b"most="),
        timeout: script::word(line, b"delay="),
    }
}

// The acknowledgement vector.
fn vector(line: &[u8]) -> Vector {
    Vector {
        base: script::word(line, b"base="),
        size: script::byte(line, b"size="),
        timed: script::byte(line, b"timed=") == 1,
        time: script::long(line, b"time="),
        gap: script::byte(line, b"gap="),
    }
}

// The values of a packet.
pub fn values(line: &[u8]) -> Values {
    Values {
        flags: script::word(line, b"flags="),
        logwindow: script::byte(line, b"logwindow="),
        ack: ack(line),
        overhead: script::byte(line, b"overhead="),
        delay: delay(line),
        aoa: script::word(line, b"aoa="),
        number: script::word(line, b"data="),
        vector: vector(line),
        channel: script::word(line, b"channel="),
    }
}

// Writes a packet with these values, its vector bytes and its block, and answers how many bytes it has; 0 where writing refuses it.
pub fn make(line: &[u8], out: &mut [u8]) -> usize
    ensures { result ≤ length out.old }
{
    let mut coded = [0u8; 128];
    let k = script::bytes(line, b"coded=", &mut coded);
    let mut block = [0u8; 1225];
    let n = script::bytes(line, b"block=", &mut block);
    let room = out.len();
    match writer::write(values(line), b"", &coded[..k], &block[..n], out) {
        Ok(m) if m <= room => m,
        _ => 0,
    }
}
