// A script: what a test program is told on standard input, a call to a line. A line begins with a name and a colon; behind it stand words, each
// after a blank: the call, then what it is given, as `key=value`. A value is a number in decimal, or bytes in hexadecimal. What a line does not
// give is 0, or no bytes.
#![tactic(auto)]

ghost use Rattle.std.specs.Prelude.{◌≡◌, ◌≤◌, ◌<◌, length, take, IfSome};
ghost use Rattle.std.specs.Iterator.{at_most};

use std::io;

// What stands between two words, behind a name, and at the end of a line.
const BLANK: u8 = b' ';

const COLON: u8 = b':';

const NEWLINE: u8 = b'\n';

// What stands before the number of bytes, where there are more than are given.
const STAR: u8 = b'*';

// The number up to which a further digit is read.
const MOST: u64 = 10000000000;

// Where a byte first stands from place from on, or the end of the text.
// It stays beside `trace_words::find`, whose answer the definitions of trace name: no script stands on those, and bounds are enough here.
pub fn find(text: &[u8], from: usize, x: u8) -> usize
    requires { from ≤ length text.now }
    ensures from { from ≤ result }
    ensures within { result ≤ length text.now }
{
    match text[from..].iter().position(|b| *b == x) {
        Some(n) => from + n,
        None => text.len(),
    }
}

// Where the line that begins at this place ends.
pub fn end(text: &[u8], from: usize) -> usize
    requires { from ≤ length text.now }
    ensures from { from ≤ result }
    ensures within { result ≤ length text.now }
{
    find(text, from, NEWLINE)
}

// The lines of a script that are still to come.
#[derive(Drop)]
pub struct LinesLeft<'a>(&'a [u8]);

// The lines of a script, in turn.
pub fn lines(text: &[u8]) -> LinesLeft<'_> {
    LinesLeft(text)
}

impl<'a> Iterator for LinesLeft<'a> {
    type Item = &'a [u8];

    ghost remaining = { λ s. at_most (length s.0.now) };

    fn next(&mut self) -> Option<&'a [u8]> {
        let text = self.0;
        if text.is_empty() {
            return None;
        }
        let n = end(text, 0);
        self.0 = &text[text.len().min(n + 1)..];
        Some(&text[..n])
    }
}

// Where the value of a key begins; the end of the line where the key is not given.
pub fn value(line: &[u8], key: &[u8]) -> usize
    ensures { result ≤ length line.now }
{
    for (i, b) in line.iter().enumerate().skip(find(line, 0, COLON)) {
        if *b == BLANK && line[i + 1..].starts_with(key) {
            return i + 1 + key.len();
        }
    }
    line.len()
}

// Writes a line's name, with its colon.
pub fn name(rt: &impl Print, line: &[u8]) -> io::Result<()> {
    let n = find(line, 0, COLON);
    rt.write_all(&line[..n])?;
    rt.write_all(b":")
}

// The first letter of the call, by which calls are told apart; 0 where a line has no call.
pub fn call(line: &[u8]) -> u8 {
    let blank = find(line, find(line, 0, COLON), BLANK);
    line.get(blank + 1).copied().unwrap_or(0)
}

// The number in decimal that a text begins with, as far as its digits go; at most some ten thousand millions.
fn decimal(text: &[u8]) -> u64 {
    let mut value = 0;
    for d in text {
        if !d.is_ascii_digit() || MOST < value {
            break;
        }
        value = value * 10 + (*d - b'0') as u64;
    }
    value
}

// The number under a key.
pub fn number(line: &[u8], key: &[u8]) -> u64 {
    decimal(&line[value(line, key)..])
}

// The number under a key, of 8 bits.
pub fn byte(line: &[u8], key: &[u8]) -> u8 {
    (number(line, key) % 256) as u8
}

// The number under a key, of 16 bits.
pub fn word(line: &[u8], key: &[u8]) -> u16 {
    (number(line, key) % 65536) as u16
}

// The number under a key, of 32 bits.
pub fn long(line: &[u8], key: &[u8]) -> u32 {
    (number(line, key) % 4294967296) as u32
}

// How many bytes a line lends under a key, at most so many; the usual number where it says nothing.
pub fn lent(line: &[u8], key: &[u8], usual: usize, most: usize) -> usize
    ensures { result ≤ most }
{
    match number(line, key) {
        0 => usual.min(most),
        n => n.min(most as u64) as usize,
    }
}

// The front of a buffer, as much of it as a line lends under a key.
pub fn front<'a>(line: &[u8], key: &[u8], usual: usize, buffer: &'a mut [u8]) -> &'a mut [u8]
    ensures within { length result.now ≤ length buffer.old }
    ensures front { result.now ≡ take (length result.now) buffer.old }
{
    let most = buffer.len();
    let n = lent(line, key, usual, most);
    &mut buffer[..n]
}

// The digit in hexadecimal that stands at a place.
fn digit(text: &[u8], at: usize) -> Option<u8>
    ensures { IfSome result (λ d. d < 16) }
{
    match *text.get(at)? {
        b @ b'0'..=b'9' => Some(b - b'0'),
        b @ b'a'..=b'f' => Some(b - b'a' + 10),
        _ => None,
    }
}

// Puts the bytes in hexadecimal that a text begins with over out, as far as both go, and answers how many.
fn decode(text: &[u8], out: &mut [u8]) -> usize
    ensures { result ≤ length out.old }
{
    for (i, b) in out.iter_mut().enumerate() {
        let (Some(high), Some(low)) = (digit(text, 2 * i), digit(text, 2 * i + 1)) else {
            return i;
        };
        *b = high * 16 + low;
    }
    out.len()
}

// Puts the bytes under a key over the front of out, and answers how many. Behind those that are given stand bytes that differ by their place; a
// star and a number behind the last of them say how many bytes there are with these.
pub fn bytes(line: &[u8], key: &[u8], out: &mut [u8]) -> usize
    ensures { result ≤ length out.old }
{
    showing::content(out);
    let text = &line[value(line, key)..];
    let n = decode(text, out);
    let star = find(text, 0, STAR);
    if find(text, 0, BLANK) <= star {
        return n;
    }
    decimal(&text[star + 1..]).min(out.len() as u64) as usize
}
