// One datagram comes in to an endpoint: the sender's half and the receiver's half are told of it together.
// Both records go in by value and come back by value.
#![tactic(auto)]

ghost use Rattle.std.specs.Prelude.{◌≡◌};
ghost use Rattle.common.specs.Answer.{answered_of};
ghost use Rattle.wire.specs.Flags.{either, ack_in, vector_in};
ghost use Rattle.endpoint.specs.Receive.{halves, receive_answer, receive_of};

use arriving::packet;
use common::Refusal;
use receiver::Receiver;
use sender::Sender;
use wire::bits;

// What receiving a datagram answers, and both records after the call; they stand first, which spares copies of them.
#[derive(Clone, Copy)]
pub struct Received {
    // The sender's record after the call.
    pub sender: Sender,
    // The receiver's record after the call.
    pub receiver: Receiver,
    // Accepted, or why not.
    pub answer: Result<(), Refusal>,
}

// Does a packet with these flags carry an acknowledgement?
fn tells(flags: u16) -> bool
    ensures { result ≡ either (ack_in flags) (vector_in flags) }
{
    bits::flag(flags, wire::ACK) || bits::flag(flags, wire::ACKVEC)
}

// Receives one datagram into both halves: both judge it before either changes. store is the receiver's, of 39,200 bytes. The sender's half remembers the
// LogWindowSize of an accepted packet of type 0. Refused with 13, then as reading it, then with 8, then with 7.
pub fn receive(s: Sender, r: Receiver, store: &mut [u8], d: &[u8]) -> Received
    ensures answer { result.answer ≡ answered_of (receive_answer 32 32 (halves s r store.old) d.now) }
    ensures sender { result.sender ≡ (receive_of 32 32 (halves s r store.old) d.now).sender }
    ensures receiver { result.receiver ≡ (receive_of 32 32 (halves s r store.old) d.now).receiver }
    ensures bytes { store.new ≡ (receive_of 32 32 (halves s r store.old) d.now).store }
{
    if store.len() != window::STORE
        || !sender_checking::consistent(s)
        || !receiver_checking::consistent(r)
    {
        return Received {
            sender: s,
            receiver: r,
            answer: Err(Refusal::Unsound),
        };
    }
    match reader::read(d) {
        Err(refusal) => Received {
            sender: s,
            receiver: r,
            answer: Err(refusal),
        },
        Ok(None) => Received {
            sender: s,
            receiver: r,
            answer: Ok(()),
        },
        Ok(Some(p)) => {
            let values = p.values;
            let named = match acknowledging::judge(s, d, p) {
                Ok(named) => named,
                Err(never) => {
                    return Received {
                        sender: s,
                        receiver: r,
                        answer: Err(never),
                    };
                }
            };
            let arrived = match judging::judge(r, values) {
                Ok(arrived) => arrived,
                Err(out) => {
                    return Received {
                        sender: s,
                        receiver: r,
                        answer: Err(out),
                    };
                }
            };
            let q = packet::apply(r, store, d, p, Ok(arrived));
            if !tells(values.flags) {
                let mut t = s;
                t.logwindow = values.logwindow;
                return Received {
                    sender: t,
                    receiver: q,
                    answer: Ok(()),
                };
            }
            let flags = named.flags;
            let mut t = turning::turn(s, flags, named.upto, sender::RECEIVED, sender::ACKNOWLEDGED);
            t.logwindow = values.logwindow;
            Received {
                sender: t,
                receiver: q,
                answer: Ok(()),
            }
        }
    }
}
