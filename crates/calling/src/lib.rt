// One event of a trace: the call that it asks of the endpoint, made by the endpoint's own calls.
#![tactic(auto)]

ghost use Rattle.std.specs.Prelude.{◌≡◌};
ghost use Rattle.calling.specs.Asks.{endpoint_with, call_by};
ghost use Rattle.calling.specs.Does.{Does};

use common::Refusal;
use receiver::Receiver;
use sender::Sender;

// What a call answers, and both records after it.
#[derive(Clone, Copy)]
pub struct Called {
    // How many a sweep found lost, and 0 for any other call; or the refusal.
    pub answer: Result<u32, Refusal>,
    // The sender's record after the call.
    pub sender: Sender,
    // The receiver's record after the call.
    pub receiver: Receiver,
}

// Makes the call of an event. store is the receiver's, sent the sender's.
pub fn call(
    s: Sender,
    r: Receiver,
    store: &mut [u8],
    sent: &mut [u8],
    kind: u8,
    tick: u32,
    bytes: &[u8],
) -> Called
    ensures { Does (endpoint_with s r store.old sent.old) (call_by kind tick bytes.now) result store.new sent.new }
{
    // As long as the longest datagram; no block is longer.
    let mut out = [0u8; wire::LONGEST_DATAGRAM];
    match kind {
        trace::IN => {
            let x = receiving::receive(s, r, store, bytes);
            Called {
                answer: x.answer.and(Ok(0)),
                sender: x.sender,
                receiver: x.receiver,
            }
        }
        trace::SEND => {
            let x = sending::send(s, sent, tick, bytes, &mut out);
            Called {
                answer: x.written.and(Ok(0)),
                sender: x.sender,
                receiver: r,
            }
        }
        trace::RESEND => {
            let x = resending::resend(s, sent, tick, &mut out);
            Called {
                answer: x.written.and(Ok(0)),
                sender: x.sender,
                receiver: r,
            }
        }
        trace::TAKE => {
            let x = taking::take(r, store, &mut out);
            Called {
                answer: x.written.and(Ok(0)),
                sender: s,
                receiver: x.receiver,
            }
        }
        trace::SWEEP => {
            let x = sweeping::sweep(s, tick);
            Called {
                answer: x.lost,
                sender: x.sender,
                receiver: r,
            }
        }
        _ => Called {
            answer: reporting::acknowledge(r, tick, 0, &mut out).and(Ok(0)),
            sender: s,
            receiver: r,
        },
    }
}
