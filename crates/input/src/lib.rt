// Standard input, or any other reader, read into a buffer: what the programs share.
#![tactic(auto)]

ghost use Rattle.std.specs.Prelude.{◌≤◌, ◌<◌, length, take, IfOk};
ghost use Rattle.std.specs.Io.KnownBytes.{Consumes, IsAtEnd};

use std::io;
use std::io::Read;

// Fills a buffer as far as the input goes, and answers how many bytes that is. What it has no room for is left unread.
pub fn read<R: Read>(input: &mut R, out: &mut [u8]) -> io::Result<usize>
    ensures within { IfOk result (λ n. n ≤ length out.old) }
    ensures bytes { IfOk result (λ n. Consumes (R.remaining input.old) (R.remaining input.new) (take n out.new)) }
    ensures end { IfOk result (λ n. n < length out.old → IsAtEnd (R.remaining input.new)) }
{
    let mut n = 0;
    while n < out.len() {
        let more = input.read(&mut out[n..])?;
        if more == 0 {
            return Ok(n);
        }
        n += more;
    }
    Ok(n)
}
