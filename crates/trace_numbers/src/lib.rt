// The numbers that a trace's lines have.
#![tactic(auto)]

ghost use Rattle.std.specs.Prelude.{◌≡◌};
ghost use Rattle.trace.specs.Numbers.{is_digit, number_of, number_under, first_of};

// Is this byte a decimal digit?
#[tactic(auto, unfolding(trace::specs::Numbers::is_digit))]
fn digit(b: u8) -> bool
    ensures { result ≡ is_digit b }
{
    matches!(b, b'0'..=b'9')
}

// The number that a text is: decimal, without leading zeros, below 2^32.
fn number(text: &[u8]) -> Option<u32>
    ensures { result ≡ number_of text.now }
{
    if text.is_empty() {
        return None;
    }
    if 1 < text.len() && text[0] == b'0' {
        return None;
    }
    let mut value: u64 = 0;
    for d in text {
        if !digit(*d) {
            return None;
        }
        value = value * 10 + (*d - b'0') as u64;
        if trace::HIGHEST < value {
            return None;
        }
    }
    Some(value as u32)
}

// The number under a key.
pub fn number_under(line: &[u8], key: &[u8]) -> Option<u32>
    ensures { result ≡ number_under key.now line.now }
{
    // By `starts`, whose contract is the trace's own definition; so too `first_numbers` and `trace_data::well_written`.
    if !trace_words::starts(line, key) {
        return None;
    }
    number(&line[key.len()..])
}

// The two numbers of the line `first=`.
pub fn first_numbers(line: &[u8]) -> Option<(u32, u32)>
    ensures { result ≡ first_of line.now }
{
    if !trace_words::starts(line, b"first=") {
        return None;
    }
    let both = &line[6..];
    let comma = trace_words::find(both, 0, b',');
    if comma == both.len() {
        return None;
    }
    let data = number(&both[..comma])?;
    let channel = number(&both[comma + 1..])?;
    Some((data, channel))
}
