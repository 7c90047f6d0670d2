// An event's lines up to its bytes, written.
#![tactic(auto)]

ghost use Rattle.std.specs.Prelude.{◌+◌, ◌≤◌, length};
ghost use Rattle.text.specs.Within.{LaidWithin};
ghost use Rattle.trace.specs.Kinds.{kind_text};
ghost use Rattle.trace.specs.Write.{lead_text};

// The word of a kind.
fn kind_word(out: &mut [u8], at: usize, kind: u8) -> usize
    requires { at + 6 ≤ length out.old }
    ensures { LaidWithin 6 (kind_text kind) out.old at out.new result }
{
    match kind {
        trace::IN => common::lay(out, at, b"in"),
        trace::SEND => common::lay(out, at, b"send"),
        trace::RESEND => common::lay(out, at, b"resend"),
        trace::TAKE => common::lay(out, at, b"take"),
        trace::SWEEP => common::lay(out, at, b"sweep"),
        _ => common::lay(out, at, b"ack"),
    }
}

// An event's lines up to its bytes.
pub fn lines(out: &mut [u8], tick: u32, kind: u8) -> usize
    requires { 43 ≤ length out.old }
    ensures { LaidWithin 43 (lead_text tick kind) out.old 0 out.new result }
{
    let at1 = text::field(out, 0, b"tick=", tick as u64, b"\n");
    let at2 = common::lay(out, at1, b"kind=");
    let at3 = kind_word(out, at2, kind);
    common::lay(out, at3, b"\ndata=")
}
