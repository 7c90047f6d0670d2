// The blocks that go over the channel. Block k begins with k itself, so that no two are alike, goes on with
// bytes that differ by their place, and is 4 to 40 bytes long.

// How many bytes block k has.
fn length(k: u32) -> usize {
    4 + (k % 37) as usize
}

// The i-th byte of block k.
fn byte(k: u32, i: usize) -> u8 {
    match i {
        0 => (k % 256) as u8,
        1 => (k / 256 % 256) as u8,
        2 => (k / 65536 % 256) as u8,
        _ => ((k as u64 % 251 + i as u64 % 251) % 251) as u8,
    }
}

// Writes block k as far as there is room, and answers how many bytes that is.
pub(crate) fn make(out: &mut [u8], k: u32) -> usize {
    let n = length(k).min(out.len());
    for (i, b) in out[..n].iter_mut().enumerate() {
        *b = byte(k, i);
    }
    n
}

// Are the first n bytes block k?
pub(crate) fn is(block: &[u8], n: usize, k: u32) -> bool {
    if n != length(k) || block.len() < n {
        return false;
    }
    block[..n].iter().enumerate().all(|(i, b)| *b == byte(k, i))
}
