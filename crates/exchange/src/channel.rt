// A channel of eight places. A datagram is put at a place that the rule names, over what may stand there; what arrives is taken from a place that
// the rule names, and may be left there to arrive once more. So the channel loses, doubles, delays and reorders.

// The bytes of a channel, its places, and the bytes of a place: a length, then the datagram. No datagram has the length 0.
pub const SIZE: usize = PLACES * PLACE;

const PLACES: usize = 8;

const PLACE: usize = 64;

// The next number of the rule.
pub(crate) fn next(seed: u32) -> u32 {
    ((seed as u64 * 1103515245 + 12345) % 2147483648) as u32
}

// The number of the rule after the next.
pub(crate) fn after(seed: u32) -> u32 {
    next(next(seed))
}

// The place that the rule names, or one so many behind it.
pub(crate) fn place(seed: u32, behind: u32) -> usize {
    ((seed / 65536 % 8 + behind % 8) % 8) as usize
}

// Puts a datagram at a place, over what may stand there.
pub(crate) fn put(channel: &mut [u8], at: usize, datagram: &[u8]) {
    let n = datagram.len();
    if PLACES <= at || channel.len() != SIZE || PLACE <= n {
        return;
    }
    let from = at * PLACE;
    channel[from] = n as u8;
    channel[from + 1..from + 1 + n].copy_from_slice(datagram);
}

// Takes out what stands at a place.
pub(crate) fn clear(channel: &mut [u8], at: usize) {
    if at < PLACES && channel.len() == SIZE {
        channel[at * PLACE] = 0;
    }
}

// The datagram that stands at a place.
pub(crate) fn get(channel: &[u8], at: usize) -> Option<&[u8]> {
    if PLACES <= at || channel.len() != SIZE {
        return None;
    }
    let from = at * PLACE;
    let n = channel[from] as usize;
    if n == 0 || PLACE <= n {
        return None;
    }
    Some(&channel[from + 1..from + 1 + n])
}
