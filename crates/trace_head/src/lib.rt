// Writing the head of a trace, with which a recorded morning begins.
#![tactic(auto)]

ghost use Rattle.std.specs.Prelude.{◌≡◌, ◌≤◌, length};
ghost use Rattle.common.specs.Answer.{written_of, left_of, room_answer};
ghost use Rattle.text.specs.Ascii.{ascii};
ghost use Rattle.text.specs.Within.{LaidWithin};
ghost use Rattle.trace.specs.Write.{head_text};

use common::Refusal;

// The two lines that are always the same.
fn fixed_lines(out: &mut [u8]) -> usize
    requires { 31 ≤ length out.old }
    ensures { LaidWithin 31 (ascii "format=counter-trace\nedition=1\n") out.old 0 out.new result }
{
    let at1 = common::lay(out, 0, &trace::FORMAT);
    let at2 = common::lay(out, at1, b"\n");
    let at3 = common::lay(out, at2, &trace::EDITION);
    common::lay(out, at3, b"\n")
}

// The four lines of the head.
fn head_lines(out: &mut [u8], firstdata: u32, firstchannel: u32, timeout: u32) -> usize
    requires { 108 ≤ length out.old }
    ensures { LaidWithin 108 (head_text firstdata firstchannel timeout) out.old 0 out.new result }
{
    let at1 = fixed_lines(out);
    let at2 = text::field(out, at1, b"first=", firstdata as u64, b",");
    let at3 = text::field(out, at2, b"", firstchannel as u64, b"\n");
    text::field(out, at3, b"timeout=", timeout as u64, b"\n")
}

// Writes the head of a trace: the two first numbers and the loss timeout that the endpoint was opened with. Refused with 14; 108 bytes
// always suffice.
pub fn head(
    firstdata: u32,
    firstchannel: u32,
    timeout: u32,
    out: &mut [u8],
) -> Result<usize, Refusal>
    ensures answer { result ≡ written_of (room_answer (head_text firstdata firstchannel timeout) (length out.old)) (head_text firstdata firstchannel timeout) }
    ensures bytes { out.new ≡ left_of (room_answer (head_text firstdata firstchannel timeout) (length out.old)) (head_text firstdata firstchannel timeout) out.old }
    ensures bound { length (head_text firstdata firstchannel timeout) ≤ 108 }
{
    let mut text = [0u8; 108];
    let n = head_lines(&mut text, firstdata, firstchannel, timeout);
    if out.len() < n {
        return Err(Refusal::Room);
    }
    common::put(out, 0, &text[..n]);
    Ok(n)
}
