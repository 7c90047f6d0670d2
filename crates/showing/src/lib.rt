// What the test programs share: numbers, bytes and answers on standard output. Lent buffers are filled before a call with bytes that differ by
// their place, so that a byte which the call should have left is seen.
#![tactic(auto)]

use common::Refusal;
use std::io;

// So many bytes at the front and at the end of a long text are shown.
const PART: usize = 16;

// Fills a buffer: each byte is its place modulo 251.
pub fn fill(out: &mut [u8]) {
    for (i, b) in out.iter_mut().enumerate() {
        *b = (i % 251) as u8;
    }
}

// Fills a block: each byte is 255 less its place modulo 251, so that none is as `fill` leaves that place.
pub fn content(out: &mut [u8]) {
    for (i, b) in out.iter_mut().enumerate() {
        *b = 255 - (i % 251) as u8;
    }
}

// A word and a number.
pub fn number(rt: &impl Print, word: &[u8], n: u64) -> io::Result<()> {
    rt.write_all(word)?;
    print!(rt; "{n}")
}

// The same where the number is not 0.
pub fn some(rt: &impl Print, word: &[u8], n: u64) -> io::Result<()> {
    if n != 0 {
        number(rt, word, n)?;
    }
    Ok(())
}

// One byte in hexadecimal.
fn byte(rt: &impl Print, b: u8) -> io::Result<()> {
    print!(rt; "{b:02x}")
}

// The bytes from one place up to another in hexadecimal.
fn span(rt: &impl Print, b: &[u8], from: usize, to: usize) -> io::Result<()> {
    for x in b.iter().take(to).skip(from) {
        byte(rt, *x)?;
    }
    Ok(())
}

// One step of a sum: another byte at another place gives another.
fn step(sum: u64, b: u8) -> u64 {
    (sum % 1000003 * 257 + b as u64 + 1) % 1000003
}

// The sum of the first n bytes, which another byte, another place or another length changes.
pub fn sum(rt: &impl Print, word: &[u8], b: &[u8], n: usize) -> io::Result<()> {
    number(rt, word, b.iter().take(n).fold(0, |s, x| step(s, *x)))
}

// The first n bytes in hexadecimal; of more than 32 the first and the last 16, and the sum of all.
pub fn bytes(rt: &impl Print, b: &[u8], n: usize) -> io::Result<()> {
    if n <= 2 * PART {
        return span(rt, b, 0, n);
    }
    span(rt, b, 0, PART)?;
    rt.write_all(b"..")?;
    span(rt, b, n - PART, n)?;
    sum(rt, b" sum=", b, n)
}

// Is this byte as it was filled?
fn filled(i: usize, b: u8) -> bool {
    i % 251 == b as usize
}

// How many bytes from place from on are not as they were filled.
pub fn touched(rt: &impl Print, out: &[u8], from: usize) -> io::Result<()> {
    let n = out
        .iter()
        .enumerate()
        .skip(from)
        .filter(|(i, b)| !filled(*i, **b))
        .count();
    number(rt, b" touched=", n as u64)
}

// The answer of a call that writes into a buffer that was filled: how many bytes it wrote and which, and how many others it touched.
pub fn answered(rt: &impl Print, w: Result<usize, Refusal>, out: &[u8]) -> io::Result<()> {
    match w {
        Err(refusal) => {
            number(rt, b" answer=", u8::from(refusal) as u64)?;
            touched(rt, out, 0)
        }
        Ok(k) => {
            number(rt, b" answer=0 bytes=", k as u64)?;
            rt.write_all(b" ")?;
            bytes(rt, out, k)?;
            touched(rt, out, k)
        }
    }
}
