// Calls one after another, on parts of lent bytes: what the loops of `host/bench` share.
#![tactic(auto)]

ghost use Rattle.std.specs.Prelude.{◌≡◌, max, min};
ghost use Rattle.repeating.specs.Steps.{written_number};

use common::Refusal;

// Where a part ends that begins at a place of so many bytes: as it is said, but not before it begins, nor past the bytes.
pub fn end_of(from: usize, said: u32, bytes: usize) -> usize
    ensures { result ≡ max from (min said bytes) }
{
    from.max((said as usize).min(bytes))
}

// The answer of a call that writes, as one number: the refusal's, or 256 and how many bytes were written.
pub fn number(w: Result<usize, Refusal>) -> u32
    ensures { result ≡ written_number w }
{
    match w {
        Err(refusal) => u8::from(refusal) as u32,
        Ok(k) => 256 + (k % 65536) as u32,
    }
}
