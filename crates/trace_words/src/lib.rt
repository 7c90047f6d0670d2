// The words of a trace's lines: where a byte stands, and whether a line is or starts with a key.
#![tactic(auto)]

ghost use Rattle.std.specs.Prelude.{◌≡◌, ◌+◌, length, drop};
ghost use Rattle.trace.specs.Lines.{up_to};
ghost use Rattle.trace.specs.Words.{same, starts_with};

// Where byte x first stands from place from on; where it does not, the end of b, or from if that lies behind it.
pub fn find(b: &[u8], from: usize, x: u8) -> usize
    ensures { result ≡ from + length (up_to x (drop from b.now)) }
{
    for i in from..b.len() {
        if b[i] == x {
            return i;
        }
    }
    from.max(b.len())
}

// Are these the same bytes?
pub fn equals(a: &[u8], b: &[u8]) -> bool
    ensures { result ≡ same a.now b.now }
{
    a == b
}

// Does a line start with this key?
pub fn starts(line: &[u8], key: &[u8]) -> bool
    ensures { result ≡ starts_with key.now line.now }
{
    line.starts_with(key)
}
