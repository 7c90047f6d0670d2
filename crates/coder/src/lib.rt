// Writes the acknowledgement vector for a range of states, by document 01's rule: vector/specs/Rule.
#![tactic(auto)]

ghost use Rattle.std.specs.Prelude.{◌≡◌, ◌+◌, ◌*◌, ◌<◌, ◌≤◌, min, false, length, get_or, take, drop};
ghost use Rattle.common.specs.Put.{put_of};
ghost use Rattle.common.specs.Answer.{written_of, left_of};
ghost use Rattle.vector.specs.Rule.{one, run_of, map_of, byte_of, covers_of, vector_of, answer_of};

use common::Refusal;

// How many states from place i on equal the state there, at most 63.
fn run_at(states: &[bool], i: usize) -> usize
    requires { i < length states.now }
    ensures { result ≡ run_of (get_or states.now i false) (drop (i + 1) states.now) }
{
    let s = states[i];
    let longest = (states.len() - i).min(63);
    for n in 1..longest {
        if states[i + n] != s {
            return n;
        }
    }
    longest
}

// The bit for the state k places after place i; 0 past the range.
fn bit_at(states: &[bool], i: usize, k: usize) -> u8
    requires { i < length states.now }
    ensures { result ≡ one (get_or states.now (i + k) false) }
{
    states[i..].get(k).is_some_and(|s| *s) as u8
}

// A map with one state more put in front: the others move up by a bit.
fn in_front(s: u8, m: u8) -> u8
    requires { (s < 2) × (m < 64) }
    ensures { result ≡ s + 2 * m }
{
    (m << 1) | s
}

// The map of the seven states from place i on, built from the last to the first.
fn map_at(states: &[bool], i: usize) -> u8
    requires { i < length states.now }
    ensures { result ≡ map_of (take 7 (drop i states.now)) }
{
    let mut m: u8 = 0;
    for k in (0..7usize).rev() {
        m = in_front(bit_at(states, i, k), m);
    }
    m
}

// The byte for a run of n states s.
fn run_byte(s: u8, n: u8) -> u8
    requires { (s < 2) × (n < 64) }
    ensures { result ≡ 128 + 64 * s + n }
{
    ((2 + s) << 6) | n
}

// The byte for the states from place i on.
fn byte_at(states: &[bool], i: usize) -> u8
    requires { i < length states.now }
    ensures { result ≡ byte_of (get_or states.now i false) (drop (i + 1) states.now) }
{
    let n = run_at(states, i);
    if n <= 7 {
        map_at(states, i)
    } else {
        run_byte(bit_at(states, i, 0), n as u8)
    }
}

// The place after the states that the byte for place i covers, at most the end of the range.
fn place_after(states: &[bool], i: usize) -> usize
    requires { i < length states.now }
    ensures { result ≡ min (length states.now) (i + covers_of (get_or states.now i false) (drop (i + 1) states.now)) }
{
    let n = run_at(states, i);
    if 7 < n {
        i + n
    } else {
        i + (states.len() - i).min(7)
    }
}

// How many bytes the vector for a range of states has. Each turn goes on by as many states as one byte covers, which no iterator over the
// states does.
fn size(states: &[bool]) -> usize
    ensures { result ≡ length (vector_of states.now) }
{
    let mut n: usize = 0;
    let mut i: usize = 0;
    while i < states.len() {
        i = place_after(states, i);
        n += 1;
    }
    n
}

// Lays the vector for a range of states over the front of out, by the same walk.
fn fill(states: &[bool], out: &mut [u8])
    requires { length (vector_of states.now) ≤ length out.old }
    ensures { out.new ≡ put_of out.old 0 (vector_of states.now) }
{
    let mut j: usize = 0;
    let mut i: usize = 0;
    while i < states.len() {
        out[j] = byte_at(states, i);
        i = place_after(states, i);
        j += 1;
    }
}

// Writes the vector for a range of states, the first state's number being the base. Refused with 14 where out is too short.
pub fn write(states: &[bool], out: &mut [u8]) -> Result<usize, Refusal>
    ensures answer { result ≡ written_of (answer_of states.now (length out.old)) (vector_of states.now) }
    ensures bytes { out.new ≡ left_of (answer_of states.now (length out.old)) (vector_of states.now) out.old }
{
    let n = size(states);
    if out.len() < n {
        return Err(Refusal::Room);
    }
    fill(states, out);
    Ok(n)
}
