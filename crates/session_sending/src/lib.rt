// The calls of a session's sending side, by value: what becomes of the session at a number's place of the list. Refused, it comes back as it was.
// Refusals come in this order: 13 for a list not of forty, 23, 24, then those of the sender's call.
#![tactic(auto)]

ghost use Rattle.std.specs.Prelude.{◌≡◌, [], length};
ghost use Rattle.common.specs.Answer.{left_of};
ghost use Rattle.endpoint.specs.Calls.{sends, resends, sweeps};
ghost use Rattle.session.specs.Call.{calls, made_of};
ghost use Rattle.session.specs.Shapes.{filled_by, counted_by};

use common::Refusal;
use session::{Reached, Session};

// Sends a new block in a session: writes its datagram into out. store is the sender's.
pub fn send(
    count: usize,
    number: u64,
    token: u64,
    old: Session,
    store: &mut [u8],
    tick: u32,
    block: &[u8],
    out: &mut [u8],
) -> Reached<usize>
    ensures { (result ≡ filled_by (made_of count number token old store.old (calls (sends tick block.now (length out.old)))))
        × (store.new ≡ (made_of count number token old store.old (calls (sends tick block.now (length out.old)))).store)
        × (out.new ≡ left_of (made_of count number token old store.old (calls (sends tick block.now (length out.old)))).answer (made_of count number token old store.old (calls (sends tick block.now (length out.old)))).bytes out.old) }
{
    if let Err(refusal) = session::place_answer(count, number, token, old.token) {
        return Reached {
            answer: Err(refusal),
            session: old,
        };
    }
    let sent = sending::send(old.sender, store, tick, block, out);
    Reached {
        answer: sent.written,
        session: Session {
            sender: sent.sender,
            ..old
        },
    }
}

// Sends the lowest waiting block of a session again: writes its datagram into out. store is the sender's.
pub fn resend(
    count: usize,
    number: u64,
    token: u64,
    old: Session,
    store: &[u8],
    tick: u32,
    out: &mut [u8],
) -> Reached<usize>
    ensures { (result ≡ filled_by (made_of count number token old store.now (calls (resends tick (length out.old)))))
        × (out.new ≡ left_of (made_of count number token old store.now (calls (resends tick (length out.old)))).answer (made_of count number token old store.now (calls (resends tick (length out.old)))).bytes out.old) }
{
    if let Err(refusal) = session::place_answer(count, number, token, old.token) {
        return Reached {
            answer: Err(refusal),
            session: old,
        };
    }
    let resent = resending::resend(old.sender, store, tick, out);
    Reached {
        answer: resent.written,
        session: Session {
            sender: resent.sender,
            ..old
        },
    }
}

// Finds what is lost in a session at a tick.
pub fn sweep(count: usize, number: u64, token: u64, old: Session, tick: u32) -> Reached<u32>
    ensures { result ≡ counted_by (made_of count number token old [] (calls (sweeps tick))) }
{
    if let Err(refusal) = session::place_answer(count, number, token, old.token) {
        return Reached {
            answer: Err(refusal),
            session: old,
        };
    }
    let swept = sweeping::sweep(old.sender, tick);
    Reached {
        answer: swept.lost,
        session: Session {
            sender: swept.sender,
            ..old
        },
    }
}
