// Numbers in a window: each has a place, its number modulo the window's size, and the window moves up past what is done with. Blocks stand
// in a lent store at the places of their numbers.
#![tactic(auto)]

ghost use Rattle.std.specs.Prelude.{◌≡◌, ◌%◌, ◌<◌};
ghost use Rattle.window.specs.Places.{past_of};
ghost use Rattle.window.specs.Store.{sound_with};
ghost use Rattle.window.specs.EachPlace.{count_of};

use numbers::{DataNumber, Number};

// How many places a window has, and how many numbers, each at its place.
pub const PLACES: usize = DataNumber::WINDOW as usize;

pub const WHOLE: u8 = DataNumber::WINDOW as u8;

// The bytes of a block's place, and of a store.
pub const PLACE: usize = 1225;

pub const STORE: usize = PLACES * PLACE;

// The place of a number, of either kind.
pub fn place<N: Number>(n: N) -> usize
    ensures { (result ≡ N.full n % 32) × (result < 32) }
{
    (n.full() % DataNumber::WINDOW) as usize
}

// How far past `first` the number lies, within a window, that has this place.
pub fn past(place: usize, first: u64) -> u8
    requires { place < 32 }
    ensures { result ≡ past_of 32 first place }
{
    ((place as u8) + (WHOLE - (first % DataNumber::WINDOW) as u8)) % WHOLE
}

// How many of a window's numbers, from `first` on, lie below `end`.
pub fn count(first: u64, end: u64) -> u8
    ensures { result ≡ count_of 32 first end }
{
    if end <= first {
        return 0;
    }
    if DataNumber::WINDOW <= end - first {
        return WHOLE;
    }
    (end - first) as u8
}

// Is a record sound with a lent store of this size, once it is known whether the record is consistent?
pub fn sound(consistent: bool, size: usize) -> bool
    ensures { result ≡ sound_with 32 consistent size }
{
    if !consistent {
        return false;
    }
    size == STORE
}
