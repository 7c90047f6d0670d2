// Writing one datagram: judged first, then written whole. This crate puts together what `reader::read` takes apart.
#![tactic(auto)]

ghost use Rattle.std.specs.Prelude.{◌≡◌, false, cond, ◌+◌, ◌-◌, ◌*◌, ◌≤◌, ◌<◌, length, replicate, ltb};
ghost use Rattle.common.specs.Laid.{Laid};
ghost use Rattle.common.specs.Answer.{written_of, left_of};
ghost use Rattle.wire.specs.Frame.{swapped};
ghost use Rattle.wire.specs.Flags.{ack_in, vector_in, both};
ghost use Rattle.wire.specs.Write.{ack_wide, vector_wide, packet_bytes, datagram_of, write_answer};
ghost use Rattle.laying.specs.Halves.{front_bytes, back_bytes};
ghost use Rattle.writer.specs.Steps.{judged_of};

use common::Refusal;
use wire::{Values, bits};

// Lays the header and the payloads up to AckOfAcks.
fn put_front(out: &mut [u8], at: usize, v: Values, additions: &[u8]) -> usize
    requires additions_in_bounds { at + length (front_bytes v additions.now) ≤ length out.old }
    requires flags_bound { (v.flags < 4096) × (v.logwindow < 16) }
    requires additions_value { both (ack_in v.flags) (ack_wide v.ack (length additions.now)) ≡ false }
    ensures { Laid out.old at (front_bytes v additions.now) out.new result }
{
    let ack = v.ack;
    let delay = v.delay;
    let isack = bits::flag(v.flags, wire::ACK);
    let isoverhead = bits::flag(v.flags, wire::OVERHEADSIZE);
    let isdelay = bits::flag(v.flags, wire::DELAYACKINFO);
    let isaoa = bits::flag(v.flags, wire::AOA);
    let at1 = laying::put_word(out, at, bits::header_of(v.flags, v.logwindow));
    let at2 = laying::put_ack(out, at1, isack, ack, additions);
    let at3 = laying::put_byte_if(out, at2, isoverhead, v.overhead);
    let at4 = laying::put_delay(out, at3, isdelay, delay);
    laying::put_word_if(out, at4, isaoa, v.aoa)
}

// Lays the payloads from DataHeader on.
fn put_back(out: &mut [u8], at: usize, v: Values, vector: &[u8], body: &[u8]) -> usize
    requires body_in_bounds { at + length (back_bytes v vector.now body.now) ≤ length out.old }
    requires vector_value { both (vector_in v.flags) (vector_wide v.vector (length vector.now)) ≡ false }
    ensures { Laid out.old at (back_bytes v vector.now body.now) out.new result }
{
    let coded = v.vector;
    let content = bits::flag(v.flags, wire::DATA);
    let isvector = bits::flag(v.flags, wire::ACKVEC);
    let at1 = laying::put_word_if(out, at, content, v.number);
    let at2 = laying::put_vector(out, at1, isvector, coded, vector);
    laying::put_body(out, at2, content, v.channel, body)
}

// Judges a write into room for so many bytes: refused with 4, 5, 10 or 14, or the packet's size.
fn judge(
    v: Values,
    additions: &[u8],
    vector: &[u8],
    body: &[u8],
    room: usize,
) -> Result<usize, Refusal>
    ensures { result ≡ judged_of v additions.now vector.now body.now room }
{
    fitting::judge_values(v, additions.len(), vector.len())?;
    let block = bits::size_if(bits::flag(v.flags, wire::DATA), body.len());
    if wire::LONGEST_DATAGRAM < block {
        return Err(Refusal::TooWide);
    }
    let k = fitting::packet_size(v, additions, vector, body);
    let n = fitting::datagram_size(k);
    if wire::LONGEST_DATAGRAM < n {
        return Err(Refusal::TooWide);
    }
    if room < n {
        return Err(Refusal::Room);
    }
    Ok(k)
}

// The prefix of a packet of k bytes: its length is told where it is short.
fn prefix_for(k: usize) -> u8
    ensures { result ≡ cond (ltb k 7) (32 * k) 0 }
{
    if k < 7 { bits::prefix_of(k as u8) } else { 0 }
}

// Pads a packet of k bytes with zeros to 7.
fn put_zeros(out: &mut [u8], at: usize, k: usize) -> usize
    requires { at + (7 - k) ≤ length out.old }
    ensures { Laid out.old at (replicate (7 - k) 0) out.new result }
{
    if k < 7 {
        let zeros = [0u8; 7];
        common::lay(out, at, &zeros[..7 - k])
    } else {
        at
    }
}

// Exchanges the first and the eighth byte.
#[tactic(auto, unfolding(wire::specs::Frame::swapped))]
fn exchange(out: &mut [u8])
    requires { 8 ≤ length out.old }
    ensures { out.new ≡ swapped out.old }
{
    out.swap(0, 7);
}

// Writes the datagram of accepted values whose packet has k bytes.
fn put_datagram(
    out: &mut [u8],
    v: Values,
    additions: &[u8],
    vector: &[u8],
    body: &[u8],
    k: usize,
) -> usize
    requires value { 0 ≡ write_answer v additions.now vector.now body.now (length out.old) }
    requires k_value { k ≡ length (packet_bytes v additions.now vector.now body.now) }
    ensures { Laid out.old 0 (datagram_of v additions.now vector.now body.now) out.new result }
{
    let at1 = common::lay_byte(out, 0, prefix_for(k));
    let at2 = put_front(out, at1, v, additions);
    let at3 = put_back(out, at2, v, vector, body);
    let end = put_zeros(out, at3, k);
    exchange(out);
    end
}

// Writes one datagram of the values, with the additions of its ACK, the bytes of its vector and its body, into out. What is not flagged is not
// looked at. Refused with 4, 5, 10, 14, in this order.
pub fn write(
    v: Values,
    additions: &[u8],
    vector: &[u8],
    body: &[u8],
    out: &mut [u8],
) -> Result<usize, Refusal>
    ensures answer { result ≡ written_of (write_answer v additions.now vector.now body.now (length out.old)) (datagram_of v additions.now vector.now body.now) }
    ensures bytes { out.new ≡ left_of (write_answer v additions.now vector.now body.now (length out.old)) (datagram_of v additions.now vector.now body.now) out.old }
{
    let k = judge(v, additions, vector, body, out.len())?;
    Ok(put_datagram(out, v, additions, vector, body, k))
}
