// The two kinds of acknowledgement: for all numbers below base, and a vector from base to end - 1.
ghost use Rattle.std.specs.Prelude.{◌≡◌, true, [], ◌≤◌, ◌<◌, length};
ghost use Rattle.common.specs.Answer.{room_answer, written_of, left_of};
ghost use Rattle.vector.specs.Rule.{vector_of};
ghost use Rattle.wire.specs.Write.{datagram_of};
ghost use Rattle.receiver.specs.Consistent.{consistent_of};
ghost use Rattle.receiver.specs.Acknowledge.{states_of, ack_values, vector_values};

use common::Refusal;
use numbers::DataNumber;
use receiver::Receiver;
use wire::{Ack, Values, Vector};

// The flags of an ACK alone, and of a vector alone.
const ACK_ALONE: u16 = 1;

const ACKVEC_ALONE: u16 = 8;

// Writes an ACK for the number before base.
pub(crate) fn write_ack(r: Receiver, stamp: u32, gap: u8, out: &mut [u8]) -> Result<usize, Refusal>
    requires { 1 ≤ r.base.0 }
    ensures answer { result ≡ written_of (room_answer (datagram_of (ack_values r stamp gap) [] [] []) (length out.old)) (datagram_of (ack_values r stamp gap) [] [] []) }
    ensures bytes { out.new
        ≡ left_of (room_answer (datagram_of (ack_values r stamp gap) [] [] []) (length out.old)) (datagram_of (ack_values r stamp gap) [] [] []) out.old }
{
    let number = ((r.base.0 - 1) % DataNumber::LAP) as u16;
    let values = Values {
        flags: ACK_ALONE,
        logwindow: wire::LOGWINDOW,
        ack: Ack {
            number,
            time: stamp % 16777216,
            gap,
            ..Ack::default()
        },
        ..Values::default()
    };
    writer::write(values, b"", b"", b"", out)
}

// Writes a vector of the states from base to end - 1.
pub(crate) fn write_vector(r: Receiver, out: &mut [u8]) -> Result<usize, Refusal>
    requires r_value { consistent_of 32 32 r ≡ true }
    requires base_lt_end { r.base.0 < r.end.0 }
    ensures answer { result ≡ written_of (room_answer (datagram_of (vector_values 32 r) [] (vector_of (states_of 32 r)) []) (length out.old))
        (datagram_of (vector_values 32 r) [] (vector_of (states_of 32 r)) []) }
    ensures bytes { out.new ≡ left_of (room_answer (datagram_of (vector_values 32 r) [] (vector_of (states_of 32 r)) []) (length out.old))
        (datagram_of (vector_values 32 r) [] (vector_of (states_of 32 r)) []) out.old }
{
    let from = r.base.0;
    let n = (r.end.0 - from) as usize;
    // The states of n numbers from base on; what follows them is not looked at.
    let mut states = [false; 32];
    for i in 0..n {
        let at = window::place(DataNumber(from + i as u64));
        states[i] = r.marks[at] == 1;
    }
    let mut coded = [0u8; 32];
    let k = coder::write(&states[..n], &mut coded)?;
    let base = (from % DataNumber::LAP) as u16;
    let values = Values {
        flags: ACKVEC_ALONE,
        logwindow: wire::LOGWINDOW,
        vector: Vector {
            base,
            size: k as u8,
            ..Vector::default()
        },
        ..Values::default()
    };
    writer::write(values, b"", &coded[..k], b"", out)
}
