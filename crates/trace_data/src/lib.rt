// The line `data=` of a trace: bytes in lower-case hex, read into a lent buffer.
#![tactic(auto)]

ghost use Rattle.std.specs.Prelude.{◌≡◌, ◌≤◌, ◌/◌, length};
ghost use Rattle.common.specs.Answer.{written_of, left_of};
ghost use Rattle.common.specs.Put.{put_of};
ghost use Rattle.trace.specs.Hex.{is_hex, hex_value, hex_good, hex_bytes};
ghost use Rattle.trace.specs.Read.{data_good, data_answer, data_bytes};

use common::Refusal;

// Is this byte a hex digit?
#[tactic(auto, unfolding(trace::specs::Hex::is_hex))]
fn hex_digit(b: u8) -> bool
    ensures { result ≡ is_hex b }
{
    matches!(b, b'0'..=b'9' | b'a'..=b'f')
}

// Is this text bytes in hex?
fn hex(text: &[u8]) -> bool
    ensures { result ≡ hex_good text.now }
{
    for b in text {
        if !hex_digit(*b) {
            return false;
        }
    }
    text.len() % 2 == 0
}

// Is the line well written, for an event of this kind?
fn well_written(kind: u8, line: &[u8]) -> bool
    ensures { result ≡ data_good kind line.now }
{
    if !trace_words::starts(line, b"data=") {
        return false;
    }
    let text = &line[5..];
    hex(text) && (trace::has_data(kind) || text.is_empty())
}

// The value of a hex digit.
#[tactic(auto, unfolding(trace::specs::Hex::hex_value))]
fn digit_value(b: u8) -> u8
    ensures { (result ≡ hex_value b) × (result ≤ 15) }
{
    match b {
        b'0'..=b'9' => b - b'0',
        b'a'..=b'f' => b - b'a' + 10,
        _ => 0,
    }
}

// Puts the bytes that a text is over out, from its first place on.
fn decode(text: &[u8], out: &mut [u8])
    requires { length text.now / 2 ≤ length out.old }
    ensures { out.new ≡ put_of out.old 0 (hex_bytes text.now) }
{
    for i in 0..text.len() / 2 {
        let at = i + i;
        out[i] = digit_value(text[at]) * 16 + digit_value(text[at + 1]);
    }
}

// Reads the line `data=` of an event of this kind, without its newline, into out. Refused with 16 where it is badly written or has bytes that
// the kind does not take, then with 14.
pub fn read(kind: u8, line: &[u8], out: &mut [u8]) -> Result<usize, Refusal>
    ensures answer { result ≡ written_of (data_answer kind line.now (length out.old)) (data_bytes line.now) }
    ensures bytes { out.new ≡ left_of (data_answer kind line.now (length out.old)) (data_bytes line.now) out.old }
{
    if !well_written(kind, line) {
        return Err(Refusal::Trace);
    }
    let n = (line.len() - 5) / 2;
    if out.len() < n {
        return Err(Refusal::Room);
    }
    decode(&line[5..], out);
    Ok(n)
}
