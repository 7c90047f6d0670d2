// A session opened and closed, by value: what becomes of the session at a place of the list. Refused, it comes back as it was.
#![tactic(auto)]

ghost use Rattle.std.specs.Prelude.{◌≡◌, []};
ghost use Rattle.common.specs.Answer.{answered_of};
ghost use Rattle.session.specs.Call.{closes, made_of};
ghost use Rattle.session.specs.Open.{open_answer, opening_of};
ghost use Rattle.session.specs.Shapes.{reached_by, opened_by};

use common::Refusal;
use session::{Reached, Session};

// Judges an opening on a list of count places of which the lowest free one is at, before the endpoint's own refusal: refused with 13, 24, 25, in
// this order.
#[tactic(auto, unfolding(session::specs::Open::open_answer, common::specs::Order::first, common::specs::Answer::answered_of, common::specs::Answer::refusal_of))]
fn judge(count: usize, at: usize, token: u64) -> Result<(), Refusal>
    ensures { result ≡ answered_of (open_answer count at token) }
{
    if count != session::PLACES {
        return Err(Refusal::Unsound);
    }
    if token == 0 {
        return Err(Refusal::NoSession);
    }
    if session::PLACES <= at {
        return Err(Refusal::NoFree);
    }
    Ok(())
}

// Opens a session for the owner of a token, on a list of count places of which the lowest free one is at and holds old, and tells its number. What
// old holds is not looked at. Refused with 13, 24, 25, 15, in this order.
pub fn open(
    count: usize,
    at: usize,
    token: u64,
    old: Session,
    firstdata: u32,
    firstchannel: u32,
    timeout: u32,
) -> Reached<u64>
    ensures { result ≡ opened_by (opening_of count at token old firstdata firstchannel timeout) }
{
    if let Err(refusal) = judge(count, at, token) {
        return Reached {
            answer: Err(refusal),
            session: old,
        };
    }
    let x = endpoint::open(firstdata, firstchannel, timeout);
    if let Err(refusal) = x.answer {
        return Reached {
            answer: Err(refusal),
            session: old,
        };
    }
    Reached {
        answer: Ok(at as u64 + 1),
        session: Session {
            token,
            sender: x.sender,
            receiver: x.receiver,
        },
    }
}

// Closes a session for its owner: its place is zero throughout. Refused with 13, 23, 24, in this order.
pub fn close(count: usize, number: u64, token: u64, old: Session) -> Reached<()>
    ensures { result ≡ reached_by (made_of count number token old [] closes) }
{
    if let Err(refusal) = session::place_answer(count, number, token, old.token) {
        return Reached {
            answer: Err(refusal),
            session: old,
        };
    }
    let session = session::free();
    Reached {
        answer: Ok(()),
        session,
    }
}
