// The places of a list of sessions that the host lends. Only these functions touch the list's elements; all are total, so that a call on the list has no
// branch of its own: past the end stands a free session, and nothing can be put there.
#![tactic(auto)]

ghost use Rattle.std.specs.Prelude.{◌≡◌, get_or, set};
ghost use Rattle.session.specs.Place.{blank};
ghost use Rattle.session.specs.List.{lowest_of};

use session::Session;

// The session at a place, counted from 0; past the end a free one.
pub fn get(list: &[Session], i: usize) -> Session
    ensures { result ≡ get_or list.now i blank }
{
    if i < list.len() {
        return list[i];
    }
    session::free()
}

// Puts a session at a place, counted from 0; past the end nothing changes.
pub fn put(list: &mut [Session], i: usize, s: Session)
    ensures { list.new ≡ set list.old i s }
{
    if i < list.len() {
        list[i] = s;
    }
}

// The lowest free place, counted from 0; the list's length where none is free.
pub fn lowest_free(list: &[Session]) -> usize
    ensures { result ≡ lowest_of list.now }
{
    for (i, s) in list.iter().enumerate() {
        if session::is_free(*s) {
            return i;
        }
    }
    list.len()
}
