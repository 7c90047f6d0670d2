// Is a sender's record consistent? One pass over the numbers in range, then one over the numbers' places and one over the blocks'.
#![tactic(auto)]

ghost use Rattle.std.specs.Prelude.{[], is_some, unwrap_or, ◌≡◌, not, ◌%◌, leb, get_or};
ghost use Rattle.common.specs.Every.{implies};
ghost use Rattle.common.specs.EveryLaws.{raised};
ghost use Rattle.sender.specs.Record.{is_acknowledged, number_passes, no_number, no_block};
ghost use Rattle.sender.specs.Consistent.{range_fits, timeout_fits, zero_number, number_fits, block_fits, consistent_of};
ghost use Rattle.sender_checking.specs.Checking.{number_placed, block_placed, Ranges, WalkedParts};

use numbers::{ChannelNumber, DataNumber};
use sender::{BlockPlace, NumberPlace, Sender};

// The longest block that is sent, as a place has its length.
const LONGEST_SENT: u16 = sender::LONGEST_BLOCK as u16;

// Is a range in order, its first within opening's range?
#[tactic(auto, unfolding(sender::specs::Consistent::range_fits, common::specs::Every::every))]
fn range_fits(first: u64, low: u64, next: u64) -> bool
    ensures { result ≡ range_fits 32 first low next }
{
    first <= numbers::FIRST
        && first <= low
        && low <= next
        && next <= numbers::PAST
        && next <= low + DataNumber::WINDOW
}

// Is the loss timeout within opening's range?
#[tactic(auto, unfolding(sender::specs::Consistent::timeout_fits, common::specs::Every::every))]
fn timeout_fits(timeout: u32) -> bool
    ensures { result ≡ timeout_fits timeout }
{
    sender::SHORTEST_TIMEOUT <= timeout && timeout <= sender::LONGEST_TIMEOUT
}

// Does the place of a number below next fit (say of 0, where next is 1)? `fly` is whether the block at its channel number's place is in flight.
#[tactic(auto, unfolding(sender::specs::Consistent::number_fits, common::specs::Every::every))]
fn used_fits(
    p: NumberPlace,
    fly: bool,
    firstchannel: ChannelNumber,
    channellow: ChannelNumber,
    channelnext: ChannelNumber,
) -> bool
    ensures { result ≡ number_fits p fly 0 1 firstchannel.0 channellow.0 channelnext.0 }
{
    if p.state == sender::PENDING {
        return channellow.0 <= p.channel.0 && p.channel.0 < channelnext.0 && fly;
    }
    sender::passes(p.state) && firstchannel.0 <= p.channel.0 && p.channel.0 < channelnext.0
}

// Is a number's place not zero, though the number lies from next on? It lies `past` numbers past low, and `count` numbers from low
// on lie below next.
fn number_wrong(p: NumberPlace, past: u8, count: u8) -> bool
    ensures { result ≡ not (implies (leb count past) (zero_number p)) }
{
    (count <= past) & ((p.state != sender::UNUSED) | (p.channel.0 != 0) | (p.tick != 0))
}

// Does a block's place not fit? The block lies `past` blocks past channel low, and `count` blocks from there on lie below channel
// next; `single` is whether exactly one pending number carries it.
fn block_wrong(b: BlockPlace, single: bool, past: u8, count: u8) -> bool
    ensures { result ≡ not (block_fits b single past count) }
{
    let outside = count <= past;
    let vacant = b.state == sender::VACANT;
    let unfit = vacant
        | (sender::ACKNOWLEDGED < b.state)
        | ((b.state == sender::INFLIGHT) & !single);
    let uncounted = (b.sends < 1) | (sender::MOST_SENDS < b.sends);
    (outside & (!vacant | (b.length != 0) | (b.sends != 0)))
        | (!outside & ((LONGEST_SENT < b.length) | uncounted | unfit))
}

// Does low stand on a number that it should have passed, or is one of the places from next on not zero? No branch leaves the
// loop, so that many places are looked at together.
fn numbers_wrong(numbers: [NumberPlace; 32], low: DataNumber, next: u64) -> bool
    ensures { result ≡ raised (number_passes (get_or numbers (low.0 % 32) no_number)) (number_placed 32 numbers low.0 next) 32 }
{
    let lowat = window::place(low);
    let number = numbers[lowat];
    let count = window::count(low.0, next);
    let mut wrong = sender::passes(number.state);
    for (j, p) in numbers.iter().enumerate() {
        wrong = wrong | number_wrong(*p, window::past(j, low.0), count);
    }
    wrong
}

// Does channel low stand on a block that it should have passed, or does one of the blocks' places not fit? A mark says that
// exactly one pending number carries the block.
fn blocks_wrong(blocks: [BlockPlace; 32], marks: [bool; 32], low: ChannelNumber, next: u64) -> bool
    ensures { result ≡ raised (is_acknowledged (get_or blocks (low.0 % 32) no_block)) (block_placed 32 blocks marks low.0 next) 32 }
{
    let lowat = window::place(low);
    let block = blocks[lowat];
    let count = window::count(low.0, next);
    let mut wrong = block.state == sender::ACKNOWLEDGED;
    for (k, b) in blocks.iter().enumerate() {
        wrong = wrong | block_wrong(*b, marks[k], window::past(k, low.0), count);
    }
    wrong
}

// Walks over the numbers from low up to next: a mark for each block that a pending one carries, or none where a number does not fit. A second mark for one
// block does not fit.
fn walk_numbers(
    numbers: [NumberPlace; 32],
    blocks: [BlockPlace; 32],
    low: u64,
    next: u64,
    firstchannel: ChannelNumber,
    channellow: ChannelNumber,
    channelnext: ChannelNumber,
) -> Option<[bool; 32]>
    requires { Ranges 32 low next firstchannel.0 channellow.0 channelnext.0 }
    ensures { WalkedParts 32 numbers blocks low next firstchannel.0 channellow.0 channelnext.0 (is_some result) (unwrap_or result []) }
{
    let mut marks = [false; 32];
    for n in low..next {
        let numberat = window::place(DataNumber(n));
        let p = numbers[numberat];
        let at = window::place(p.channel);
        let b = blocks[at];
        let fly = b.state == sender::INFLIGHT;
        let pending = p.state == sender::PENDING;
        let marked = marks[at];
        let fits = used_fits(p, fly, firstchannel, channellow, channelnext) & !(pending & marked);
        if !fits {
            return None;
        }
        marks[at] = marked | pending;
    }
    Some(marks)
}

// Is the record consistent? One walk over the numbers in range, and then all places in their own order.
pub fn consistent(s: Sender) -> bool
    ensures { result ≡ consistent_of 32 32 s }
{
    let numbersfit = range_fits(s.firstdata.0, s.low.0, s.next.0);
    let blocksfit = range_fits(s.firstchannel.0, s.channellow.0, s.channelnext.0);
    if !(numbersfit & blocksfit & timeout_fits(s.timeout)) {
        return false;
    }
    let numbers = s.numbers;
    let blocks = s.blocks;
    let Some(marks) = walk_numbers(
        numbers,
        blocks,
        s.low.0,
        s.next.0,
        s.firstchannel,
        s.channellow,
        s.channelnext,
    ) else {
        return false;
    };
    let numberswrong = numbers_wrong(numbers, s.low, s.next.0);
    !(numberswrong | blocks_wrong(blocks, marks, s.channellow, s.channelnext.0))
}
