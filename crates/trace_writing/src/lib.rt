// Writing the events of a trace, each as it happens, so that a host can record a morning; `trace_head` writes the head, and
// `trace_lead` an event's lines up to its bytes.
#![tactic(auto)]

ghost use Rattle.std.specs.Prelude.{◌≡◌, ◌++◌, ◌+◌, ◌≤◌, ◌<◌, length};
ghost use Rattle.common.specs.Answer.{written_of, left_of};
ghost use Rattle.common.specs.Laid.{Laid};
ghost use Rattle.text.specs.Ascii.{ascii};
ghost use Rattle.trace.specs.Hex.{hex_digit, hex_text};
ghost use Rattle.trace.specs.Write.{event_text, event_good, event_answer};

use common::Refusal;

// The hex digit of a value below 16.
#[tactic(auto, unfolding(trace::specs::Hex::hex_digit))]
fn digit_of(v: u8) -> u8
    requires { v < 16 }
    ensures { result ≡ hex_digit v }
{
    if v < 10 { b'0' + v } else { b'a' - 10 + v }
}

// Bytes as text, from place at on.
fn hex_text(out: &mut [u8], at: usize, bytes: &[u8]) -> usize
    requires { at + (length bytes.now + length bytes.now) ≤ length out.old }
    ensures { Laid out.old at (hex_text bytes.now) out.new result }
{
    let mut to = at;
    for b in bytes {
        out[to] = digit_of(*b / 16);
        out[to + 1] = digit_of(*b % 16);
        to += 2;
    }
    to
}

// Can an event of this kind with so many bytes be written?
#[tactic(auto, unfolding(trace::specs::Write::event_good, trace::specs::Kinds::is_kind, common::specs::Every::every))]
fn writable(kind: u8, size: usize) -> bool
    ensures { result ≡ event_good kind size }
{
    matches!(kind, trace::IN..=trace::ACKNOWLEDGE) && (trace::has_data(kind) || size == 0)
}

// An event's lines, where they fit.
fn event_lines(out: &mut [u8], lead: &[u8], bytes: &[u8]) -> usize
    requires { length lead.now + (length bytes.now + length bytes.now) + 1 ≤ length out.old }
    ensures { Laid out.old 0 (lead.now ++ (hex_text bytes.now ++ ascii "\n")) out.new result }
{
    let at1 = common::lay(out, 0, lead);
    let at2 = hex_text(out, at1, bytes);
    common::lay(out, at2, b"\n")
}

// Writes one event. Refused with 16 for a kind that is none of the six, or bytes on a kind that has none, then with 14; 44 bytes and two for each of
// its bytes always suffice.
pub fn event(tick: u32, kind: u8, bytes: &[u8], out: &mut [u8]) -> Result<usize, Refusal>
    ensures answer { result ≡ written_of (event_answer tick kind bytes.now (length out.old)) (event_text tick kind bytes.now) }
    ensures bytes { out.new ≡ left_of (event_answer tick kind bytes.now (length out.old)) (event_text tick kind bytes.now) out.old }
    ensures bound { length (event_text tick kind bytes.now) ≤ 44 + (length bytes.now + length bytes.now) }
{
    if !writable(kind, bytes.len()) {
        return Err(Refusal::Trace);
    }
    let mut lead = [0u8; 43];
    let n = trace_lead::lines(&mut lead, tick, kind);
    // Half of what is left over, so that nothing is doubled past the range.
    if out.len() < n + 1 || (out.len() - n - 1) / 2 < bytes.len() {
        return Err(Refusal::Room);
    }
    Ok(event_lines(out, &lead[..n], bytes))
}
