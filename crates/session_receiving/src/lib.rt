// The calls of a session's receiving side, by value: what becomes of the session at a number's place of the list. Refused, it comes back as it was.
// Refusals come in this order: 13 for a list not of forty, 23, 24, then those of the endpoint's call.
#![tactic(auto)]

ghost use Rattle.std.specs.Prelude.{◌≡◌, [], length};
ghost use Rattle.common.specs.Answer.{left_of};
ghost use Rattle.endpoint.specs.Calls.{receives, takes, acknowledges};
ghost use Rattle.session.specs.Call.{calls, made_of};
ghost use Rattle.session.specs.Shapes.{reached_by, filled_by};

use common::Refusal;
use session::{Reached, Session};

// Receives one datagram into both halves of a session. store is the receiver's.
pub fn receive(
    count: usize,
    number: u64,
    token: u64,
    old: Session,
    store: &mut [u8],
    d: &[u8],
) -> Reached<()>
    ensures { (result ≡ reached_by (made_of count number token old store.old (calls (receives d.now))))
        × (store.new ≡ (made_of count number token old store.old (calls (receives d.now))).store) }
{
    if let Err(refusal) = session::place_answer(count, number, token, old.token) {
        return Reached {
            answer: Err(refusal),
            session: old,
        };
    }
    let heard = receiving::receive(old.sender, old.receiver, store, d);
    Reached {
        answer: heard.answer,
        session: Session {
            sender: heard.sender,
            receiver: heard.receiver,
            ..old
        },
    }
}

// Takes the block due of a session into out. store is the receiver's.
pub fn take(
    count: usize,
    number: u64,
    token: u64,
    old: Session,
    store: &[u8],
    out: &mut [u8],
) -> Reached<usize>
    ensures { (result ≡ filled_by (made_of count number token old store.now (calls (takes (length out.old)))))
        × (out.new ≡ left_of (made_of count number token old store.now (calls (takes (length out.old)))).answer (made_of count number token old store.now (calls (takes (length out.old)))).bytes out.old) }
{
    if let Err(refused) = session::place_answer(count, number, token, old.token) {
        return Reached {
            answer: Err(refused),
            session: old,
        };
    }
    let taken = taking::take(old.receiver, store, out);
    Reached {
        answer: taken.written,
        session: Session {
            receiver: taken.receiver,
            ..old
        },
    }
}

// Writes an acknowledgement of what has arrived in a session into out; no record changes.
pub fn acknowledge(
    count: usize,
    number: u64,
    token: u64,
    old: Session,
    stamp: u32,
    gap: u8,
    out: &mut [u8],
) -> Result<usize, Refusal>
    ensures { (result ≡ (filled_by (made_of count number token old [] (calls (acknowledges stamp gap (length out.old))))).answer)
        × (out.new ≡ left_of (made_of count number token old [] (calls (acknowledges stamp gap (length out.old)))).answer (made_of count number token old [] (calls (acknowledges stamp gap (length out.old)))).bytes out.old) }
{
    session::place_answer(count, number, token, old.token)?;
    reporting::acknowledge(old.receiver, stamp, gap, out)
}
