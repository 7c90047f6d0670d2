// A block goes out under a data number: its datagram, and the record after that. `sending` and `resending` judge first.
#![tactic(auto)]

ghost use Rattle.std.specs.Prelude.{◌≡◌, ◌≤◌, length};
ghost use Rattle.common.specs.Answer.{room_answer, written_of, left_of};
ghost use Rattle.numbers.specs.Full.{past_highest};
ghost use Rattle.sender.specs.Send.{data_values, data_bytes, sent_of};
ghost use Rattle.sender.specs.Record.{longest_sent};

use common::Refusal;
use numbers::{ChannelNumber, DataNumber};
use sender::{BlockPlace, NumberPlace, Sender};
use wire::Values;

// The flags of a data packet: AOA and DATA, nothing else.
const AOA_AND_DATA: u16 = 0x014;

// What a call that sends answers: what it wrote, and the record.
#[derive(Clone, Copy)]
pub struct Outcome {
    // The refusal, or how many bytes were written.
    pub written: Result<usize, Refusal>,
    // The record after the call.
    pub sender: Sender,
}

// The values of a data packet with this low and this data number that carries this block.
fn data_values(low: DataNumber, next: DataNumber, channel: ChannelNumber) -> Values
    ensures { result ≡ data_values low.0 next.0 channel.0 }
{
    Values {
        flags: AOA_AND_DATA,
        logwindow: wire::LOGWINDOW,
        aoa: (low.0 % DataNumber::LAP) as u16,
        number: (next.0 % DataNumber::LAP) as u16,
        channel: (channel.0 % ChannelNumber::LAP) as u16,
        ..Values::default()
    }
}

// Writes the datagram that carries a block. Refused with 14 alone.
pub fn put_data(
    low: DataNumber,
    next: DataNumber,
    channel: ChannelNumber,
    block: &[u8],
    out: &mut [u8],
) -> Result<usize, Refusal>
    requires { length block.now ≤ longest_sent }
    ensures answer { result ≡ written_of (room_answer (data_bytes low.0 next.0 channel.0 block.now) (length out.old)) (data_bytes low.0 next.0 channel.0 block.now) }
    ensures bytes { out.new ≡ left_of (room_answer (data_bytes low.0 next.0 channel.0 block.now) (length out.old)) (data_bytes low.0 next.0 channel.0 block.now) out.old }
{
    writer::write(data_values(low, next, channel), b"", b"", block, out)
}

// The record after the next data number went out with block c, of so many bytes, at this tick. Its place then says that the block was
// sent so many times.
pub fn sent(
    s: Sender,
    tick: u32,
    c: ChannelNumber,
    length: u16,
    sends: u8,
    channelnext: ChannelNumber,
) -> Sender
    requires { s.next.0 ≤ past_highest }
    ensures { result ≡ sent_of 32 s tick c.0 length sends channelnext.0 }
{
    let numberat = window::place(s.next);
    let blockat = window::place(c);
    let mut q = s;
    let next = DataNumber(s.next.0 + 1);
    q.next = next;
    q.channelnext = channelnext;
    q.numbers[numberat] = NumberPlace {
        channel: c,
        tick,
        state: sender::PENDING,
    };
    q.blocks[blockat] = BlockPlace {
        state: sender::INFLIGHT,
        sends,
        length,
    };
    q
}
