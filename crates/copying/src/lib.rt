// A part of a datagram, copied out for the host, as the additions, the vector bytes or the block of a packet that was read.
#![tactic(auto)]

ghost use Rattle.std.specs.Prelude.{◌≡◌, ◌+◌, ◌≤◌, length};
ghost use Rattle.common.specs.Put.{put_of};
ghost use Rattle.common.specs.Answer.{answered_of, written_of, left_of};
ghost use Rattle.wire.specs.Layout.{part_of};
ghost use Rattle.copying.specs.Copy.{copy_answer};

use common::Refusal;
use wire::bits;

// Judges a copy of n bytes from a place on into room for so many: refused with 1, 3, 14, in this order.
fn judge(d: &[u8], from: usize, n: usize, room: usize) -> Result<(), Refusal>
    ensures { result ≡ answered_of (copy_answer d.now from n room) }
{
    let size = d.len();
    if size < wire::SHORTEST {
        return Err(Refusal::Length);
    }
    if wire::LONGEST_DATAGRAM < size {
        return Err(Refusal::Length);
    }
    let end = size - bits::dropped(parts::byte_at(d, 0));
    if end < n {
        return Err(Refusal::PastTheEnd);
    }
    if end - n < from {
        return Err(Refusal::PastTheEnd);
    }
    if room < n {
        return Err(Refusal::Room);
    }
    Ok(())
}

// Lays the n bytes from a place on over the front of out. The prefix, at place 0, is laid by itself.
fn fill(out: &mut [u8], d: &[u8], from: usize, n: usize)
    requires { (8 ≤ length d.now) × (from + n ≤ length d.now) × (n ≤ length out.old) }
    ensures { out.new ≡ put_of out.old 0 (part_of d.now from n) }
{
    if 0 < from {
        parts::copy_part(out, 0, d, from, n);
    } else if 0 < n {
        out[0] = parts::byte_at(d, 0);
        parts::copy_part(out, 1, d, 1, n - 1);
    }
}

// Copies the n bytes from a place on of a datagram, its first and eighth bytes exchanged, over the front of out. Refused with 1, 3, 14, in this order.
pub fn copy(d: &[u8], from: usize, n: usize, out: &mut [u8]) -> Result<usize, Refusal>
    ensures answer { result ≡ written_of (copy_answer d.now from n (length out.old)) (part_of d.now from n) }
    ensures bytes { out.new ≡ left_of (copy_answer d.now from n (length out.old)) (part_of d.now from n) out.old }
{
    judge(d, from, n, out.len())?;
    fill(out, d, from, n);
    Ok(n)
}
