// The two kinds of number, and the age of a tick.
// "A data number counts transmissions and a channel number counts blocks": each is a type of its own, so that neither is
// widened against the other's reference; both widen by the one rule.
#![tactic(auto)]

ghost use Rattle.std.specs.Prelude.{◌≡◌, ℕ, ◌≤◌, refl};
ghost use Rattle.numbers.specs.Full.{past_highest};
ghost use Rattle.numbers.specs.Widen.{widen_of, widened_as, data_of, channel_of, out_of};
ghost use Rattle.numbers.specs.Age.{age_of};

// The highest full number, and one past it, where the next of its kind may stand.
pub const HIGHEST: u64 = 4294967295;

pub const PAST: u64 = HIGHEST + 1;

// The highest first number of either kind.
pub const FIRST: u64 = 65535;

// What a field widens to.
#[derive(Clone, Copy)]
pub enum Widened<N> {
    // This number.
    At(N),
    // The number that lies so far below 0.
    Below(u16),
    // None: the field lies half a lap away, as far on the one side as on the other.
    Unclear,
}

// A kind of number. Each widens against references of its own kind alone.
pub trait Number: Copy {
    // The full number, and the number of this kind that a full number is.
    ghost full: { Self → ℕ };

    ghost of: { ℕ → Self };

    fn full(self) -> u64
        ensures { result ≡ full self };

    fn of(n: u64) -> Self
        ensures { result ≡ of n };

    // The whole number congruent to field modulo 65,536 that lies from reference - 32,767 to reference + 32,767, if there is one: what a field of
    // a packet stands for, seen from a reference of a consistent record.
    final fn widen(reference: Self, field: u16) -> Widened<Self>
        requires { full reference ≤ past_highest }
        ensures { result ≡ widened_as of (widen_of (full reference) field) }
    {
        let top = reference.full() + DataNumber::HALF - 1;
        let back = (top + DataNumber::LAP - field as u64) % DataNumber::LAP;
        // Half a lap below the reference, and so half a lap above it too.
        if back == DataNumber::LAP - 1 {
            return Widened::Unclear;
        }
        if back <= top {
            Widened::At(Self::of(top - back))
        } else {
            Widened::Below((back - top) as u16)
        }
    }

    // No two full numbers are one number of a kind.
    ghost full_of: { (n : ℕ) → full (of n) ≡ n };
}

// A full data number.
#[repr(C)]
#[derive(Clone, Copy)]
pub struct DataNumber(pub u64);

// A full channel number.
#[repr(C)]
#[derive(Clone, Copy)]
pub struct ChannelNumber(pub u64);

impl DataNumber {
    // How many numbers a window spans.
    pub const WINDOW: u64 = 32;
    // How far from its reference a field is unclear: it lies as far above as below.
    pub const HALF: u64 = 32768;
    // How far apart two numbers of one field lie.
    pub const LAP: u64 = 2 * Self::HALF;
}

// The constants stand on both types: one that a trait provides is not supported in another constant's value, as in `window::PLACES`.
impl ChannelNumber {
    // How many numbers a window spans.
    pub const WINDOW: u64 = DataNumber::WINDOW;
    // How far from its reference a field is unclear: it lies as far above as below.
    pub const HALF: u64 = DataNumber::HALF;
    // How far apart two numbers of one field lie.
    pub const LAP: u64 = DataNumber::LAP;
}

impl Number for DataNumber {
    ghost full = { λ n. n.0 };

    ghost of = { data_of };

    ghost full_of = { λ n. refl };

    fn full(self) -> u64 {
        self.0
    }

    fn of(n: u64) -> DataNumber {
        DataNumber(n)
    }
}

impl Number for ChannelNumber {
    ghost full = { λ c. c.0 };

    ghost of = { channel_of };

    ghost full_of = { λ n. refl };

    fn full(self) -> u64 {
        self.0
    }

    fn of(n: u64) -> ChannelNumber {
        ChannelNumber(n)
    }
}

impl<N: Number> Widened<N> {
    // Does the number lie below the first of its kind, or is it unclear?
    pub fn out_of_place(self, first: N) -> bool
        ensures { result ≡ out_of (N.full first) (widened_as N.full self) }
    {
        match self {
            Widened::At(n) => n.full() < first.full(),
            Widened::Below(_) | Widened::Unclear => true,
        }
    }
}

// How long ago a tick was: the tick runs free, so the difference wraps, and half the range or more counts as 0.
pub fn age(tick: u32, sent: u32) -> u32
    ensures { result ≡ age_of tick sent }
{
    let passed = tick.wrapping_sub(sent);
    if passed < 2147483648 { passed } else { 0 }
}
