// One session of the portal box: an endpoint with its owner's token, 0 where its place is free. Here are its record, the refusals that come before all
// others, and all definitions; what a call makes of one session stands in `session_opening`, `session_receiving` and `session_sending`, the list of
// forty in `sessions`.
#![tactic(auto)]

ghost use Rattle.std.specs.Prelude.{◌≡◌};
ghost use Rattle.common.specs.Answer.{answered_of};
ghost use Rattle.session.specs.Place.{blank, place_of, free_of, place_answer};

use common::Refusal;
use receiver::Receiver;
use sender::Sender;

// How many places a list has.
pub const PLACES: usize = 40;

// A session's number is at most this.
const HIGHEST: u64 = PLACES as u64;

// A session. The token stands first, so that a search for a free place reads it at the place's start.
#[repr(C)]
#[derive(Clone, Copy)]
pub struct Session {
    // The owner's token; 0 where the place is free.
    pub token: u64,
    // The sender's half.
    pub sender: Sender,
    // The receiver's half.
    pub receiver: Receiver,
}

// What a call makes of a session. T is what an accepted call tells its caller: nothing, how many bytes it wrote, how many became lost, or the
// session's number.
#[derive(Clone, Copy)]
pub struct Reached<T> {
    // The refusal, or what is told.
    pub answer: Result<T, Refusal>,
    // The session that stands at its place afterwards.
    pub session: Session,
}

// A free place: zero throughout.
pub fn free() -> Session
    ensures { result ≡ blank }
{
    let mut sender = sender::opened(0, 0, 0);
    sender.logwindow = 0;
    let receiver = receiver::opened(0, 0);
    Session {
        token: 0,
        sender,
        receiver,
    }
}

// Is a place free?
pub fn is_free(s: Session) -> bool
    ensures { result ≡ free_of s }
{
    s.token == 0
}

// The place of a session's number, counted from 0; past the end where the number is outside 1 to 40.
#[tactic(auto, unfolding(crate::specs::Place::place_of))]
pub fn place_of(n: u64) -> usize
    ensures { result ≡ place_of n }
{
    match n {
        1..=HIGHEST => (n - 1) as usize,
        _ => PLACES,
    }
}

// Judges what comes before all else, for a list of so many places, a number, a caller's token, and the token at the number's place: refused with
// 13, 23, 24, in this order.
#[tactic(auto, unfolding(crate::specs::Place::place_answer, common::specs::Order::first, common::specs::Answer::answered_of, common::specs::Answer::refusal_of))]
pub fn place_answer(count: usize, number: u64, token: u64, owner: u64) -> Result<(), Refusal>
    ensures { result ≡ answered_of (place_answer count number token owner) }
{
    if count != PLACES {
        return Err(Refusal::Unsound);
    }
    if number < 1 || HIGHEST < number {
        return Err(Refusal::NoPlace);
    }
    if token == 0 || owner != token {
        return Err(Refusal::NoSession);
    }
    Ok(())
}
