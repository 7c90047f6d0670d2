// The sender's half of an endpoint: which data numbers are out, and which blocks they carry. Its calls stand in crates of their own,
// `acknowledging`, `sweeping`, `sending` and `resending`, and the check of a record in `sender_checking`.
// A record goes in by value and comes back by value; sent blocks stand in a store that the host lends, 1,225 bytes to a place.
#![tactic(auto)]

ghost use Rattle.std.specs.Prelude.{◌≡◌, true, cond, ◌≤◌, eqb};
ghost use Rattle.sender.specs.Fresh.{fresh_of};
ghost use Rattle.sender.specs.Send.{limit_of, at_limit_of};

use numbers::{ChannelNumber, DataNumber};

// The longest block that is sent.
pub const LONGEST_BLOCK: usize = 1223;

// How often a block is sent at most.
pub const MOST_SENDS: u8 = 6;

// The shortest and the longest loss timeout, in milliseconds.
pub const SHORTEST_TIMEOUT: u32 = 300;

pub const LONGEST_TIMEOUT: u32 = 60000;

// The LogWindowSize that a peer is taken to have before its first packet: it allows 32 data numbers.
const OPENING_LOGWINDOW: u8 = 5;

// 2 to this power is the window.
const WINDOW_POWER: u8 = 5;

// What a data number's place says of it. These stay numbers: a host may hand in any record, in C too, and one with another state is refused with 13
// (`consistent_of`), so a place's field holds any byte.
pub const UNUSED: u8 = 0;

pub const PENDING: u8 = 1;

pub const RECEIVED: u8 = 2;

pub const LOST: u8 = 3;

// What a block's place says of it: numbers for the same reason.
pub const VACANT: u8 = 0;

pub const INFLIGHT: u8 = 1;

pub const WAITING: u8 = 2;

pub const ACKNOWLEDGED: u8 = 3;

// A place for a data number. The widest field stands first: a place has 16 bytes.
#[repr(C)]
#[derive(Clone, Copy)]
pub struct NumberPlace {
    // The block that it carries.
    pub channel: ChannelNumber,
    // The tick at which it was sent.
    pub tick: u32,
    // Unused, pending, received or lost.
    pub state: u8,
}

// A place for a block. The two bytes stand together, so that a place has four bytes.
#[repr(C)]
#[derive(Clone, Copy)]
pub struct BlockPlace {
    // Vacant, in flight, waiting or acknowledged.
    pub state: u8,
    // How often the block was sent, 1 for the first.
    pub sends: u8,
    // The block's length.
    pub length: u16,
}

// The sender's record.
#[repr(C)]
#[derive(Clone, Copy)]
pub struct Sender {
    // The first data number.
    pub firstdata: DataNumber,
    // The first channel number.
    pub firstchannel: ChannelNumber,
    // The loss timeout, in milliseconds.
    pub timeout: u32,
    // The peer's LogWindowSize, as its last accepted packet of type 0 gave it.
    pub logwindow: u8,
    // The first pending data number, or next; numbers from here up to next are in range.
    pub low: DataNumber,
    // The data number of the next send.
    pub next: DataNumber,
    // The first block that is not acknowledged, or channel next; blocks from here up to channel next are in range.
    pub channellow: ChannelNumber,
    // The channel number of the next new block.
    pub channelnext: ChannelNumber,
    // The places of data numbers: number n has place n modulo the window.
    pub numbers: [NumberPlace; 32],
    // The places of blocks: block c has place c modulo the window.
    pub blocks: [BlockPlace; 32],
}

// A fresh record, from the first number of each kind and the loss timeout.
pub fn opened(firstdata: u16, firstchannel: u16, timeout: u32) -> Sender
    ensures { result ≡ fresh_of 32 firstdata firstchannel timeout }
{
    let data = firstdata as u64;
    let channel = firstchannel as u64;
    Sender {
        firstdata: DataNumber(data),
        firstchannel: ChannelNumber(channel),
        timeout,
        logwindow: OPENING_LOGWINDOW,
        low: DataNumber(data),
        next: DataNumber(data),
        channellow: ChannelNumber(channel),
        channelnext: ChannelNumber(channel),
        numbers: [NumberPlace {
            channel: ChannelNumber(0),
            tick: 0,
            state: UNUSED,
        }; 32],
        blocks: [BlockPlace {
            state: VACANT,
            sends: 0,
            length: 0,
        }; 32],
    }
}

// How many data numbers may be in range, from low up to next, at a peer with this LogWindowSize: 2 to that power, and at most the window.
fn limit(logwindow: u8) -> u64
    ensures { result ≡ limit_of 32 logwindow }
{
    1u64 << logwindow.min(WINDOW_POWER)
}

// Are as many data numbers in range as the peer's LogWindowSize allows, or more?
pub fn at_limit(low: DataNumber, next: DataNumber, logwindow: u8) -> bool
    requires { low.0 ≤ next.0 }
    ensures { result ≡ at_limit_of 32 low.0 next.0 logwindow }
{
    limit(logwindow) <= next.0 - low.0
}

// Does low pass a number in this state?
pub fn passes(state: u8) -> bool
    ensures { result ≡ cond (eqb state 2) true (eqb state 3) }
{
    matches!(state, RECEIVED | LOST)
}
