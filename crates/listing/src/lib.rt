// The listing of one datagram, as lines of text.
#![tactic(auto)]

ghost use Rattle.std.specs.Prelude.{◌≡◌, ◌≤◌, length};
ghost use Rattle.common.specs.Answer.{written_of, left_of};
ghost use Rattle.text.specs.Within.{LaidWithin};
ghost use Rattle.listing.specs.Lines.{lines_for, listing_of, answer_of};

use common::Refusal;
use wire::Packet;

// The lines of what was read, from the first place on.
fn reading_lines(out: &mut [u8], r: Result<Option<Packet>, Refusal>) -> usize
    requires { 503 ≤ length out.old }
    ensures { LaidWithin 503 (lines_for r) out.old 0 out.new result }
{
    match r {
        Err(refusal) => listing_fields::number_line(
            out,
            0,
            b"answer=",
            true,
            u8::from(refusal) as u64,
        ),
        Ok(None) => {
            let at = listing_fields::number_line(out, 0, b"answer=", true, 0);
            listing_fields::number_line(out, at, b"type=", true, 8)
        }
        Ok(Some(p)) => listing_packet::lines(out, p),
    }
}

// The lines of a datagram of any length. Refused with 14 where out is too short for them; 503 bytes always suffice.
pub fn lines(d: &[u8], out: &mut [u8]) -> Result<usize, Refusal>
    ensures answer { result ≡ written_of (answer_of d.now (length out.old)) (listing_of d.now) }
    ensures bytes { out.new ≡ left_of (answer_of d.now (length out.old)) (listing_of d.now) out.old }
    ensures bound { length (listing_of d.now) ≤ 503 }
{
    // No listing is longer than this.
    let mut text = [0u8; 503];
    let n = reading_lines(&mut text, reader::read(d));
    if out.len() < n {
        return Err(Refusal::Room);
    }
    common::put(out, 0, &text[..n]);
    Ok(n)
}
