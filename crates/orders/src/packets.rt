// The set: 32 packets. The k-th has the k-th number and carries the k-th block, but for two: packet 9 has number 10, so that number 9 is
// missing, and packet 20 carries block 3, so that block 20 is missing. Every fifth has an AckOfAcks.
use wire::Values;

// The first numbers of the endpoint.
pub const FIRSTDATA: u32 = 65520;

pub const FIRSTCHANNEL: u32 = 65530;

// The packet that arrives after packet k.
pub(crate) fn next(k: u32, factor: u32) -> u32 {
    ((k as u64 + factor as u64) % 32) as u32
}

// Is i + 1 a multiple of every?
pub(crate) fn ends(every: u32, i: u32) -> bool {
    every != 0 && i % every == every - 1
}

// The block that packet k carries.
fn block(k: u32) -> u32 {
    if k == 20 { 3 } else { k }
}

// The number of packet k.
fn data(k: u32) -> u32 {
    if k == 9 { 10 } else { k }
}

// The flags of packet k.
fn flags(k: u32) -> u16 {
    if k % 5 == 0 { 0x014 } else { 0x004 }
}

// The field of a number k places after a first one.
fn field(first: u32, k: u32) -> u16 {
    ((first as u64 + k as u64) % 65536) as u16
}

// The values of packet k.
fn values(k: u32) -> Values {
    Values {
        flags: flags(k),
        logwindow: 5,
        aoa: field(FIRSTDATA, k / 4),
        number: field(FIRSTDATA, data(k)),
        channel: field(FIRSTCHANNEL, block(k)),
        ..Values::default()
    }
}

// The i-th byte of block b.
fn byte(b: u32, i: usize) -> u8 {
    ((b as u64 % 251 + 7 * (i as u64 % 251)) % 251) as u8
}

// The bytes of a block: its own number in front, and behind it bytes that differ by their place; one more than its number.
fn fills(out: &mut [u8], k: u32) -> usize {
    let b = block(k);
    for i in 0..33usize {
        if out.len() <= i {
            return i;
        }
        if b < i as u32 {
            return i;
        }
        out[i] = byte(b, i);
    }
    33
}

// Writes packet k, and answers its length; 0 where it is refused.
pub(crate) fn make(datagram: &mut [u8], k: u32) -> usize {
    let mut bytes = [0u8; 40];
    let n = fills(&mut bytes, k);
    if 40 < n {
        return 0;
    }
    writer::write(values(k), b"", b"", &bytes[..n], datagram).unwrap_or(0)
}
