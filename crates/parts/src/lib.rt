// What stands at a place of a datagram: a byte, a number of two or three bytes, or a part of several.
#![tactic(auto)]

ghost use Rattle.std.specs.Prelude.{◌≡◌, ◌+◌, ◌≤◌, length};
ghost use Rattle.common.specs.Put.{put_of};
ghost use Rattle.wire.specs.Frame.{swapped, byte_at, word_at, three_at};
ghost use Rattle.wire.specs.Layout.{sized, part_of};

// The byte at a place, the first and the eighth exchanged; 0 past the end.
#[tactic(auto, unfolding(wire::specs::Frame::swapped))]
pub fn byte_at(d: &[u8], i: usize) -> u8
    requires { 8 ≤ length d.now }
    ensures { result ≡ byte_at (swapped d.now) i }
{
    match i {
        0 => d[7],
        7 => d[0],
        _ => d.get(i).copied().unwrap_or(0),
    }
}

// The two bytes at a place as a number.
pub fn word_at(d: &[u8], i: usize) -> u16
    requires { (8 ≤ length d.now) × (i ≤ 2000) }
    ensures { result ≡ word_at (swapped d.now) i }
{
    let low = byte_at(d, i) as u16;
    let high = byte_at(d, i + 1) as u16;
    low + 256 * high
}

// The three bytes at a place as a number.
pub fn three_at(d: &[u8], i: usize) -> u32
    requires { (8 ≤ length d.now) × (i ≤ 2000) }
    ensures { result ≡ three_at (swapped d.now) i }
{
    let low = word_at(d, i) as u32;
    let high = byte_at(d, i + 2) as u32;
    low + 65536 * high
}

// The byte at a place where it is flagged, and 0 where it is not. This and the two like it differ in what they read and in its type: a function over
// both would take a closure with a contract of its own, which is longer than the line that it would stand for.
pub fn byte_if(flag: bool, d: &[u8], i: usize) -> u8
    requires { 8 ≤ length d.now }
    ensures { result ≡ sized flag (byte_at (swapped d.now) i) }
{
    if flag { byte_at(d, i) } else { 0 }
}

// The number at a place where it is flagged, and 0 where it is not.
pub fn word_if(flag: bool, d: &[u8], i: usize) -> u16
    requires { (8 ≤ length d.now) × (i ≤ 2000) }
    ensures { result ≡ sized flag (word_at (swapped d.now) i) }
{
    if flag { word_at(d, i) } else { 0 }
}

// The three-byte number at a place where it is flagged, and 0 where it is not.
pub fn three_if(flag: bool, d: &[u8], i: usize) -> u32
    requires { (8 ≤ length d.now) × (i ≤ 2000) }
    ensures { result ≡ sized flag (three_at (swapped d.now) i) }
{
    if flag { three_at(d, i) } else { 0 }
}

// Copies the n bytes that stand at a place of a datagram over dst from place to on. The datagram's first byte stands at place 7.
pub fn copy_part(dst: &mut [u8], to: usize, d: &[u8], at: usize, n: usize)
    requires { (8 ≤ length d.now) × (1 ≤ at) × (at + n ≤ length d.now) × (to + n ≤ length dst.old) }
    ensures { dst.new ≡ put_of dst.old to (part_of d.now at n) }
{
    common::put(dst, to, &d[at..at + n]);
    if at <= 7 {
        let k = 7 - at;
        if k < n {
            dst[to + k] = d[0];
        }
    }
}
