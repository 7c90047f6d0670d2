// Some pending numbers turn and their blocks with them, and both lows move on: what acknowledging and sweeping have in common.
#![tactic(auto)]

ghost use Rattle.std.specs.Prelude.{◌≡◌, true, false, cond, eqb, ltb};
ghost use Rattle.sender.specs.Turn.{turned_of};
ghost use Rattle.turning.specs.Turnable.{Turnable};
ghost use Rattle.turning.specs.Chosen.{chosen_by};

use numbers::{ChannelNumber, DataNumber};
use sender::{BlockPlace, NumberPlace, Sender};

// Does number n turn, in this state, with this flag?
fn turns(state: u8, flag: bool, n: u64, upto: u64) -> bool
    ensures { result ≡ cond (eqb state 1) (cond flag true (ltb n upto)) false }
{
    state == sender::PENDING && (flag || n < upto)
}

// Pending numbers that are flagged at their place, or lie below upto, get the one state and their blocks the other. Then low moves
// past received and lost numbers, and channel low past acknowledged blocks.
pub fn turn(s: Sender, flags: [bool; 32], upto: u64, number: u8, block: u8) -> Sender
    requires { Turnable 32 s }
    ensures { result ≡ turned_of 32 (record { number = number; block = block }) (chosen_by 32 flags upto) s }
{
    let mut q = s;
    for n in s.low.0..s.next.0 {
        let at = window::place(DataNumber(n));
        let p = q.numbers[at];
        if turns(p.state, flags[at], n, upto) {
            let channel = p.channel;
            let blockat = window::place(channel);
            let b = q.blocks[blockat];
            q.numbers[at] = NumberPlace {
                channel,
                tick: p.tick,
                state: number,
            };
            q.blocks[blockat] = BlockPlace {
                state: block,
                sends: b.sends,
                length: b.length,
            };
        }
    }
    for _ in 0..DataNumber::WINDOW {
        let at = window::place(q.low);
        let p = q.numbers[at];
        if !sender::passes(p.state) {
            break;
        }
        q.numbers[at] = NumberPlace {
            channel: ChannelNumber(0),
            tick: 0,
            state: sender::UNUSED,
        };
        let after = DataNumber(q.low.0 + 1);
        q.low = after;
    }
    for _ in 0..ChannelNumber::WINDOW {
        let at = window::place(q.channellow);
        let b = q.blocks[at];
        if b.state != sender::ACKNOWLEDGED {
            return q;
        }
        q.blocks[at] = BlockPlace {
            state: sender::VACANT,
            sends: 0,
            length: 0,
        };
        let after = ChannelNumber(q.channellow.0 + 1);
        q.channellow = after;
    }
    q
}
