// The receiver's half of an endpoint: which data numbers have arrived, and which blocks wait to be taken. Its calls stand in crates of their own,
// `arriving`, `taking` and `reporting`, and the check of a record in `receiver_checking`.
// A record goes in by value and comes back by value; blocks stand in a store that the host lends, 1,225 bytes to a place.
#![tactic(auto)]

ghost use Rattle.std.specs.Prelude.{◌≡◌};
ghost use Rattle.receiver.specs.Fresh.{fresh_of};

use numbers::{ChannelNumber, DataNumber};

// A place for a block.
#[repr(C)]
#[derive(Clone, Copy)]
pub struct Hold {
    // 1 where a block is held, and else 0. It stands beside the length and is no Option: the record crosses to C, and any other byte is refused with 13.
    pub held: u8,
    // The block's length; 0 where none is held.
    pub length: u16,
}

// The receiver's record.
#[repr(C)]
#[derive(Clone, Copy)]
pub struct Receiver {
    // The first data number.
    pub firstdata: DataNumber,
    // The first channel number.
    pub firstchannel: ChannelNumber,
    // "The lowest data number neither received nor waived".
    pub base: DataNumber,
    // "One more than the highest received, at first the first number".
    pub end: DataNumber,
    // The next channel number due.
    pub due: ChannelNumber,
    // Which data numbers from base on are received: 1 where one is, and else 0. Number n has place n modulo the window.
    pub marks: [u8; 32],
    // Which blocks from due on are held. Block c has place c modulo the window.
    pub holds: [Hold; 32],
}

// A fresh record, from the first number of each kind.
pub fn opened(firstdata: u16, firstchannel: u16) -> Receiver
    ensures { result ≡ fresh_of 32 firstdata firstchannel }
{
    let data = firstdata as u64;
    let channel = firstchannel as u64;
    Receiver {
        firstdata: DataNumber(data),
        firstchannel: ChannelNumber(channel),
        base: DataNumber(data),
        end: DataNumber(data),
        due: ChannelNumber(channel),
        marks: [0; 32],
        holds: [Hold { held: 0, length: 0 }; 32],
    }
}
