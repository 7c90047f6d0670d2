// The window of marks by itself, so that the whole record goes through no loop: all below a number is waived, a number is marked, and base moves
// past marked places.
#![tactic(auto)]

ghost use Rattle.std.specs.Prelude.{◌≡◌, ◌+◌, ◌^◌, ◌≤◌, ◌<◌};
ghost use Rattle.numbers.specs.Full.{highest, past_highest};
ghost use Rattle.window.specs.Window.{lifted, slid};
ghost use Rattle.receiver.specs.Record.{is_marked};
ghost use Rattle.receiver.specs.Packet.{marked};
ghost use Rattle.marking.specs.Marks.{win_of};

use numbers::DataNumber;

// Base, and a mark for each of the numbers from base on.
#[derive(Clone, Copy)]
pub struct Marks {
    // The lowest number neither received nor waived.
    pub base: DataNumber,
    // A mark for each number, at its place.
    pub places: [u8; 32],
}

// All below v is waived.
fn lift(m: Marks, v: DataNumber) -> Marks
    requires { m.base.0 ≤ past_highest }
    ensures { (win_of result ≡ lifted 0 32 v.0 (win_of m)) × (result.base.0 ≤ m.base.0 + 32 + v.0) }
{
    let mut next = m;
    for _ in 0..DataNumber::WINDOW {
        let base = next.base;
        if v.0 <= base.0 {
            return next;
        }
        let at = window::place(base);
        next.places[at] = 0;
        let after = DataNumber(base.0 + 1);
        next.base = after;
    }
    let raised = DataNumber(next.base.0.max(v.0));
    next.base = raised;
    next
}

// Number n is marked, unless below base.
fn mark(m: Marks, n: DataNumber) -> Marks
    ensures { (win_of result ≡ marked 32 (win_of m) n.0) × (result.base.0 ≡ m.base.0) }
{
    if n.0 < m.base.0 {
        return m;
    }
    let at = window::place(n);
    let mut next = m;
    next.places[at] = 1;
    next
}

// Base moves past marked places.
fn advance(m: Marks) -> Marks
    requires { m.base.0 < 2 ^ 34 }
    ensures { win_of result ≡ slid 0 32 is_marked 32 (win_of m) }
{
    let mut next = m;
    for _ in 0..DataNumber::WINDOW {
        let base = next.base;
        let at = window::place(base);
        if next.places[at] != 1 {
            return next;
        }
        next.places[at] = 0;
        let after = DataNumber(base.0 + 1);
        next.base = after;
    }
    next
}

// All below v is waived, and base moves past marked places.
pub fn waive(m: Marks, v: DataNumber) -> Marks
    requires { (m.base.0 ≤ past_highest) × (v.0 ≤ highest) }
    ensures { win_of result ≡ slid 0 32 is_marked 32 (lifted 0 32 v.0 (win_of m)) }
{
    advance(lift(m, v))
}

// All below v is waived, number n is marked, and base moves past marked places.
pub fn note(m: Marks, n: DataNumber, v: DataNumber) -> Marks
    requires { (m.base.0 ≤ past_highest) × (v.0 ≤ highest) }
    ensures { win_of result ≡ slid 0 32 is_marked 32 (marked 32 (lifted 0 32 v.0 (win_of m)) n.0) }
{
    advance(mark(lift(m, v), n))
}
