// What a packet that was judged brings the receiver, applied.
ghost use Rattle.std.specs.Prelude.{◌≡◌, true, cond, ◌+◌, ◌≤◌, length, Ok};
ghost use Rattle.common.specs.Put.{put_of};
ghost use Rattle.window.specs.Store.{place_size, store_size, store_place};
ghost use Rattle.wire.specs.Layout.{part_of};
ghost use Rattle.wire.specs.Read.{read_of, read_as};
ghost use Rattle.receiver.specs.Record.{holding, state};
ghost use Rattle.receiver.specs.Consistent.{consistent_of};
ghost use Rattle.receiver.specs.Packet.{is_new};
ghost use Rattle.receiver.specs.Receive.{values_of};
ghost use Rattle.judging.specs.Judge.{judged_of};

use common::Refusal;
use judging::Arrived;
use marking::Marks;
use numbers::{ChannelNumber, DataNumber};
use receiver::{Hold, Receiver};

// Stores block c, n bytes of the datagram, unless it is a repeat: one below due, or already held. Answers what then stands at its place; h stood there.
fn hold(
    store: &mut [u8],
    d: &[u8],
    body: usize,
    n: usize,
    c: ChannelNumber,
    due: ChannelNumber,
    h: Hold,
) -> Hold
    requires { (length store.old ≡ store_size 32) × (8 ≤ length d.now) × (1 ≤ body) × (body + n ≤ length d.now) × (n ≤ place_size) }
    ensures place { result ≡ cond (is_new due.0 c.0 h) (holding n) h }
    ensures bytes { store.new ≡ cond (is_new due.0 c.0 h) (put_of store.old (store_place 32 c.0) (part_of d.now body n)) store.old }
{
    if c.0 < due.0 {
        return h;
    }
    if h.held == 1 {
        return h;
    }
    let at = window::place(c);
    parts::copy_part(store, at * window::PLACE, d, body, n);
    Hold {
        held: 1,
        length: n as u16,
    }
}

// Applies what a packet was judged to bring; a refusal changes nothing.
pub fn apply(
    r: Receiver,
    store: &mut [u8],
    d: &[u8],
    p: wire::Packet,
    a: Result<Arrived, Refusal>,
) -> Receiver
    requires r_value { consistent_of 32 32 r ≡ true }
    requires store_len { length store.old ≡ store_size 32 }
    requires d_value { read_of d.now ≡ read_as p }
    requires a_value { a ≡ judged_of 32 r p.values }
    ensures record { result ≡ (values_of 32 (state r store.old) d.now p).receiver }
    ensures bytes { store.new ≡ (values_of 32 (state r store.old) d.now p).store }
{
    let Ok(brought) = a else {
        return r;
    };
    let places = r.marks;
    let before = Marks {
        base: r.base,
        places,
    };
    match brought {
        Arrived::Nothing => r,
        Arrived::Waiver(v) => {
            let after = marking::waive(before, v);
            let base = after.base;
            let marks = after.places;
            let mut q = r;
            q.base = base;
            q.marks = marks;
            q
        }
        Arrived::Content(n, c, v) => {
            let after = marking::note(before, n, v);
            let base = after.base;
            let end = DataNumber(r.end.0.max(n.0 + 1));
            let marks = after.places;
            let at = window::place(c);
            let h = hold(store, d, p.body, p.bytes, c, r.due, r.holds[at]);
            let mut q = r;
            q.base = base;
            q.end = end;
            q.marks = marks;
            q.holds[at] = h;
            q
        }
    }
}
