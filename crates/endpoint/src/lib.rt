// One endpoint: the sender's half and the receiver's half, opened together; `receiving` tells both of the same datagrams.
// The other calls take the half that they concern: `take` and `acknowledge` of the receiver, `send`, `resend` and `sweep` of the sender.
#![tactic(auto)]

ghost use Rattle.std.specs.Prelude.{◌≡◌};
ghost use Rattle.common.specs.Answer.{answered_of};
ghost use Rattle.endpoint.specs.Open.{open_answer, opened_of, told_of};

use common::Refusal;
use receiver::Receiver;
use sender::Sender;

// The highest first number of either kind.
const FIRST: u32 = numbers::FIRST as u32;

// What opening answers, and both records; where it is refused they are all zero, and the sender's is inconsistent.
#[derive(Clone, Copy)]
pub struct Opened {
    // The refusal, if it is one.
    pub answer: Result<(), Refusal>,
    // The sender's half.
    pub sender: Sender,
    // The receiver's half.
    pub receiver: Receiver,
}

// Judges what an endpoint is to be opened with: refused with 15.
#[tactic(auto, unfolding(crate::specs::Open::open_answer, common::specs::Order::first, common::specs::Answer::answered_of, common::specs::Answer::refusal_of,))]
fn judge(firstdata: u32, firstchannel: u32, timeout: u32) -> Result<(), Refusal>
    ensures { result ≡ answered_of (open_answer firstdata firstchannel timeout) }
{
    if FIRST < firstdata
        || FIRST < firstchannel
        || timeout < sender::SHORTEST_TIMEOUT
        || sender::LONGEST_TIMEOUT < timeout
    {
        return Err(Refusal::Opening);
    }
    Ok(())
}

// Opens an endpoint: the first number of each kind, for both directions alike, and the loss timeout. Refused with 15.
pub fn open(firstdata: u32, firstchannel: u32, timeout: u32) -> Opened
    ensures { result ≡ told_of (opened_of 32 firstdata firstchannel timeout) }
{
    match judge(firstdata, firstchannel, timeout) {
        Err(refusal) => {
            let mut zero = sender::opened(0, 0, 0);
            zero.logwindow = 0;
            Opened {
                answer: Err(refusal),
                sender: zero,
                receiver: receiver::opened(0, 0),
            }
        }
        Ok(()) => {
            let data = firstdata as u16;
            let channel = firstchannel as u16;
            Opened {
                answer: Ok(()),
                sender: sender::opened(data, channel, timeout),
                receiver: receiver::opened(data, channel),
            }
        }
    }
}
