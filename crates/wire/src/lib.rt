// One RDP-UDP2 datagram: its framing (prefix, short length, the exchange of two bytes), its header and its payloads.
// The crate `reader` takes a datagram apart, and `writer` puts one together. No record and no window is known here; numbers are the
// 16-bit fields that stand on the wire.
#![tactic(auto)]

pub mod bits;

// The longest and the shortest datagram.
pub const LONGEST_DATAGRAM: usize = 1232;

// The LogWindowSize that an endpoint writes.
pub const LOGWINDOW: u8 = 5;

pub const SHORTEST: usize = 8;

// The places of the six flags in the header.
pub const ACK: u32 = 0;

pub const DATA: u32 = 2;

pub const ACKVEC: u32 = 3;

pub const AOA: u32 = 4;

pub const OVERHEADSIZE: u32 = 6;

pub const DELAYACKINFO: u32 = 8;

// The ACK payload, without its additions.
#[repr(C)]
#[derive(Clone, Copy, Default)]
pub struct Ack {
    // SeqNum: every data number up to this one is acknowledged.
    pub number: u16,
    // receivedTS, 24 bits.
    pub time: u32,
    // sendAckTimeGap.
    pub gap: u8,
    // How many additions follow, 4 bits.
    pub count: u8,
    // The scale of the additions, 4 bits.
    pub scale: u8,
}

// The DelayAckInfo payload.
#[repr(C)]
#[derive(Clone, Copy, Default)]
pub struct Delay {
    // MaxDelayedAcks.
    pub most: u8,
    // The timeout in milliseconds.
    pub timeout: u16,
}

// The ACKVEC payload, without its vector bytes.
#[repr(C)]
#[derive(Clone, Copy, Default)]
pub struct Vector {
    // BaseSeqNum: the first number that the vector speaks of.
    pub base: u16,
    // How many vector bytes follow, 7 bits.
    pub size: u8,
    // Do a time stamp and a gap stand before the vector bytes? No Option holds the two: the record crosses to C, and a writer is lent any values.
    pub timed: bool,
    // TimeStamp, 24 bits; 0 where there is none.
    pub time: u32,
    // SendAckTimeGapInMs; 0 where there is none.
    pub gap: u8,
}

// The values of a packet, but for the bytes that have a length of their own. What is not flagged is 0 where it was read, and is not
// looked at where it is written.
#[repr(C)]
#[derive(Clone, Copy, Default)]
pub struct Values {
    // The header's flags, 12 bits.
    pub flags: u16,
    // LogWindowSize, 4 bits.
    pub logwindow: u8,
    // The ACK.
    pub ack: Ack,
    // OverheadSize.
    pub overhead: u8,
    // DelayAckInfo.
    pub delay: Delay,
    // AckOfAcks.
    pub aoa: u16,
    // DataSeqNum.
    pub number: u16,
    // The acknowledgement vector, but for its bytes.
    pub vector: Vector,
    // ChannelSeqNum.
    pub channel: u16,
}

// A packet that was read, with the places at which its additions, its vector bytes and its body stand. Places count in the datagram
// with its first and eighth bytes exchanged: what stands at place 7 is the datagram's first byte. A place is 0 where nothing stands.
#[repr(C)]
#[derive(Clone, Copy, Default)]
pub struct Packet {
    // The packet's values.
    pub values: Values,
    // Where the ACK's additions stand; there are as many as its count.
    pub additions: usize,
    // Where the vector bytes stand; there are as many as the vector's size.
    pub vector: usize,
    // Where the block stands.
    pub body: usize,
    // How many bytes the block has.
    pub bytes: usize,
}
