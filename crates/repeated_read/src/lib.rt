// Reads a datagram, and tells what it answers with no enum in it.
#![tactic(auto)]

ghost use Rattle.std.specs.Prelude.{◌≡◌};
ghost use Rattle.wire.specs.Read.{read_of};
ghost use Rattle.repeated_read.specs.Told.{no_packet, told_of};

use common::Refusal;
use wire::Packet;

// What reading a datagram answers, with no enum in it: the C interface of `measured` hands it out, so the number and the flag stay.
#[repr(C)]
#[derive(Clone, Copy)]
pub struct Told {
    // The packet, all zeros where none was read.
    pub packet: Packet,
    // Document 01's number.
    pub answer: u8,
    // Is it a dummy?
    pub dummy: bool,
}

// What is told where no packet was read.
fn unread(answer: u8, dummy: bool) -> Told
    ensures { result ≡ record { packet = no_packet; answer = answer; dummy = dummy } }
{
    Told {
        packet: Packet::default(),
        answer,
        dummy,
    }
}

// Reads one datagram. (The caller loops: of answers that are only added up a compiler might compute less.)
pub fn read(d: &[u8]) -> Told
    ensures { result ≡ told_of (read_of d.now) }
{
    match reader::read(d) {
        Err(refusal) => unread(u8::from(refusal), false),
        Ok(None) => unread(0, true),
        Ok(Some(p)) => Told {
            packet: p,
            answer: 0,
            dummy: false,
        },
    }
}
