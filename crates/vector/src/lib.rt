// The bytes of an acknowledgement vector: what each byte says. The crate `coder` writes them, by the rule in specs/Rule.
// A state is true where its number was received. This crate knows no record and no datagram.
#![tactic(auto)]

ghost use Rattle.std.specs.Prelude.{◌≡◌, ◌+◌, ◌<◌, false, length, get_or};
ghost use Rattle.std.specs.Int.Count.{ones};
ghost use Rattle.vector.specs.Says.{bit_of, says_of, states_in, received_in};

// What one byte of a vector says.
#[derive(Clone, Copy)]
pub enum Saying {
    // Seven numbers: bit i is the state of the i-th.
    Map(u8),
    // So many numbers in a row, all in the one state.
    Run(bool, u8),
}

// Takes a vector byte apart.
pub fn says(b: u8) -> Saying
    ensures { result ≡ says_of b }
{
    if (b >> 7) & 1 == 1 {
        Saying::Run((b >> 6) & 1 == 1, b & 63)
    } else {
        Saying::Map(b & 127)
    }
}

// How many numbers a byte gives a state.
pub fn span(b: u8) -> u8
    ensures { result ≡ length (states_in (says_of b)) }
{
    match says(b) {
        Saying::Map(_) => 7,
        Saying::Run(_, n) => n,
    }
}

// Is bit i of b set? Bit 0 is the least significant.
fn bit(b: u8, i: u32) -> bool
    requires { i < 8 }
    ensures { result ≡ bit_of b i }
{
    (b >> i) & 1 == 1
}

// The state that a byte gives its i-th number; missing past its span.
pub fn state(b: u8, i: u8) -> bool
    ensures { result ≡ get_or (states_in (says_of b)) i false }
{
    match says(b) {
        Saying::Map(m) => i < 7 && bit(m, i as u32),
        Saying::Run(s, n) => i < n && s,
    }
}

// How many bits of b are 1, by the processor's own count.
fn ones(b: u8) -> u8
    ensures { result ≡ ones b }
{
    u8::count_ones(b) as u8
}

// How many numbers a byte names as received: of a map, its ones; of a run, all or none.
pub fn received(b: u8) -> u8
    ensures { result ≡ received_in b }
{
    match says(b) {
        Saying::Map(m) => ones(m),
        Saying::Run(s, n) => if s { n } else { 0 },
    }
}
