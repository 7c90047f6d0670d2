// A datagram comes in: the receiver's half judges it, and keeps its block in a store that the host lends.
#![tactic(auto)]

ghost use Rattle.std.specs.Prelude.{◌≡◌};
ghost use Rattle.common.specs.Answer.{answered_of};
ghost use Rattle.receiver.specs.Record.{state};
ghost use Rattle.receiver.specs.Receive.{receive_answer, receive_of};

pub mod packet;

use common::Refusal;
use receiver::Receiver;

// What receiving a datagram answers, and the record after the call; it stands first, which spares copies of it.
#[derive(Clone, Copy)]
pub struct Received {
    // The record after the call.
    pub receiver: Receiver,
    // Accepted, or the refusal.
    pub answer: Result<(), Refusal>,
}

// Receives one datagram into the receiver's half alone: keeps its block in store, 39,200 bytes. Refused with 13, then as reading it, then with 7.
pub fn receive(r: Receiver, store: &mut [u8], d: &[u8]) -> Received
    ensures answer { result.answer ≡ answered_of (receive_answer 32 32 (state r store.old) d.now) }
    ensures record { result.receiver ≡ (receive_of 32 32 (state r store.old) d.now).receiver }
    ensures bytes { store.new ≡ (receive_of 32 32 (state r store.old) d.now).store }
{
    if !window::sound(receiver_checking::consistent(r), store.len()) {
        return Received {
            receiver: r,
            answer: Err(Refusal::Unsound),
        };
    }
    match reader::read(d) {
        Err(refusal) => Received {
            receiver: r,
            answer: Err(refusal),
        },
        Ok(None) => Received {
            receiver: r,
            answer: Ok(()),
        },
        Ok(Some(p)) => match judging::judge(r, p.values) {
            Err(refusal) => Received {
                receiver: r,
                answer: Err(refusal),
            },
            Ok(a) => {
                let q = packet::apply(r, store, d, p, Ok(a));
                Received {
                    receiver: q,
                    answer: Ok(()),
                }
            }
        },
    }
}
