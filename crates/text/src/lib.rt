// Numbers as text.
#![tactic(auto)]

ghost use Rattle.std.specs.Prelude.{◌+◌, ◌≤◌, length};
ghost use Rattle.common.specs.Laid.{Laid};
ghost use Rattle.text.specs.Decimal.{decimal_of};
ghost use Rattle.text.specs.Lines.{between};
ghost use Rattle.text.specs.Within.{LaidWithin};

// Writes n in decimal, without leading zeros, from place at on; the result is the next free place.
pub fn decimal(out: &mut [u8], at: usize, n: u64) -> usize
    requires { at + 20 ≤ length out.old }
    ensures { Laid out.old at (decimal_of n) out.new result }
{
    // The digits are found from the last to the first, so they fill the array from its end. What is left of the number, and not the place, ends
    // the loop: a `for` over the places would need a return within it, and an answer for a number of more than 20 digits.
    let mut digits = [0u8; 20];
    let mut i: usize = 20;
    let mut rest = n;
    while 10 <= rest {
        i -= 1;
        digits[i] = b'0' + (rest % 10) as u8;
        rest /= 10;
    }
    i -= 1;
    digits[i] = b'0' + rest as u8;
    common::lay(out, at, &digits[i..])
}

// Writes before, n in decimal, and behind, one after the other from place at on; the result is the next free place.
pub fn field(out: &mut [u8], at: usize, before: &[u8], n: u64, behind: &[u8]) -> usize
    requires { at + (length before.now + (20 + length behind.now)) ≤ length out.old }
    ensures { LaidWithin (length before.now + (20 + length behind.now)) (between before.now n behind.now) out.old at out.new result }
{
    let start = common::lay(out, at, before);
    let end = decimal(out, start, n);
    common::lay(out, end, behind)
}
