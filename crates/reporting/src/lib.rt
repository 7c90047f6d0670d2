// Reports what has arrived: an acknowledgement, written as a datagram.
#![tactic(auto)]

ghost use Rattle.std.specs.Prelude.{◌≡◌, length};
ghost use Rattle.common.specs.Answer.{written_of, left_of};
ghost use Rattle.receiver.specs.Acknowledge.{acknowledge_answer, acknowledgement_of};

mod acknowledgement;

use common::Refusal;
use receiver::Receiver;

// Writes an acknowledgement of what has arrived into out, with the caller's time stamp and gap; no record changes. Refused with 13, 11, 14, in this order.
pub fn acknowledge(r: Receiver, stamp: u32, gap: u8, out: &mut [u8]) -> Result<usize, Refusal>
    ensures answer { result ≡ written_of (acknowledge_answer 32 32 r stamp gap (length out.old)) (acknowledgement_of 32 r stamp gap) }
    ensures bytes { out.new ≡ left_of (acknowledge_answer 32 32 r stamp gap (length out.old)) (acknowledgement_of 32 r stamp gap) out.old }
{
    if !receiver_checking::consistent(r) {
        return Err(Refusal::Unsound);
    }
    let base = r.base.0;
    if r.end.0 <= base {
        if base == r.firstdata.0 {
            return Err(Refusal::Nothing);
        }
        return acknowledgement::write_ack(r, stamp, gap, out);
    }
    acknowledgement::write_vector(r, out)
}
