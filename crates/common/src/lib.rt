// What several crates use: why a call is refused, and bytes laid one run after another.
#![tactic(auto)]

ghost use Rattle.std.specs.Prelude.{◌≡◌, [], ◌∷◌, ◌+◌, ◌≤◌, length};
ghost use Rattle.common.specs.Answer.{no_of, number_of};
ghost use Rattle.common.specs.Put.{put_of};
ghost use Rattle.common.specs.Laid.{Laid};

// Why a call is refused, with the number that documents 01 and 02 give each.
#[derive(Clone, Copy, PartialEq, Eq)]
pub enum Refusal {
    // A datagram of under 8 or over 1,232 bytes.
    Length = 1,
    // The prefix's reserved bit is set, or the packet's type is neither 0 nor 8.
    Prefix = 2,
    // The header or a flagged payload runs past the packet's end.
    PastTheEnd = 3,
    // A flag outside the six.
    OtherFlag = 4,
    // ACK and ACKVEC are both set.
    TwoAcknowledgements = 5,
    // Bytes are left over, and DATA is not set.
    LeftOver = 6,
    // A data, channel or AckOfAcks number is out of place.
    OutOfPlace = 7,
    // An acknowledgement is out of place.
    NeverSent = 8,
    // A sending window is full.
    Full = 9,
    // A value is wider than its field, a block too long, or a datagram would be.
    TooWide = 10,
    // There is nothing to take, to send again or to acknowledge.
    Nothing = 11,
    // The numbers are used up.
    UsedUp = 12,
    // A lent store or list is not of its size, or a record is inconsistent.
    Unsound = 13,
    // The lent output is too short for this answer.
    Room = 14,
    // An endpoint is opened with a value out of range.
    Opening = 15,
    // A line of a trace is not the one due, or is badly written.
    Trace = 16,
    // A block was sent as often as it may be.
    Spent = 22,
    // A session's number is outside 1 to 40.
    NoPlace = 23,
    // No such session, or a token of 0.
    NoSession = 24,
    // No place is free.
    NoFree = 25,
}

impl From<Refusal> for u8 {
    // The papers' number.
    fn from(refusal: Refusal) -> u8
        ensures { result ≡ no_of refusal }
    {
        refusal as u8
    }
}

// The papers' number of an answer: 0 where it is accepted.
pub fn number<T: Drop>(answer: Result<T, Refusal>) -> u8
    ensures { result ≡ number_of answer }
{
    match answer {
        Ok(_) => 0,
        Err(refusal) => u8::from(refusal),
    }
}

// Copies src over dst from place at on. A loop stays: `copy_from_slice` calls `memmove`, and the archive for C is to need `memcpy` and `memset` alone.
pub fn put(dst: &mut [u8], at: usize, src: &[u8])
    requires { at + length src.now ≤ length dst.old }
    ensures { dst.new ≡ put_of dst.old at src.now }
{
    for i in 0..src.len() {
        dst[at + i] = src[i];
    }
}

// Lays src over dst from place at on; the result is the next free place.
pub fn lay(dst: &mut [u8], at: usize, src: &[u8]) -> usize
    requires { at + length src.now ≤ length dst.old }
    ensures { Laid dst.old at src.now dst.new result }
{
    put(dst, at, src);
    at + src.len()
}

// Lays one byte.
pub fn lay_byte(dst: &mut [u8], at: usize, b: u8) -> usize
    requires { at + 1 ≤ length dst.old }
    ensures { Laid dst.old at (b ∷ []) dst.new result }
{
    dst[at] = b;
    at + 1
}
