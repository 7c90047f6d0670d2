// Forty sessions in a list that the host lends; a session's number is its place, 1 to 40. Every call but opening names a number and its owner's token. It gets the
// session at the number's place, lets a function on values do the work, and puts back what that made of it: refused, the session as it was.
// Refusals come in this order: 13 for a list not of forty, 23 for a number outside 1 to 40, 24 for no such session, then those of the endpoint's own call. A refusal
// changes no place, no store and no output.
#![tactic(auto)]

ghost use Rattle.std.specs.Prelude.{◌≡◌, [], length};
ghost use Rattle.common.specs.Answer.{left_of};
ghost use Rattle.endpoint.specs.Calls.{receives, takes, acknowledges, sends, resends, sweeps};
ghost use Rattle.session.specs.Call.{calls, closes};
ghost use Rattle.session.specs.List.{outcome_of, list_of, opening_at, open_list_of};
ghost use Rattle.session.specs.Shapes.{reached_by, filled_by, counted_by, opened_by};

use common::Refusal;
use session::Session;

// Opens a session at the lowest free place, for the owner of a token: the first number of each kind, and the loss timeout. Gives its number. Refused with 13, 24
// for a token of 0, 25 if no place is free, 15, in this order.
pub fn open(
    list: &mut [Session],
    token: u64,
    firstdata: u32,
    firstchannel: u32,
    timeout: u32,
) -> Result<u64, Refusal>
    ensures { (result ≡ (opened_by (opening_at list.old token firstdata firstchannel timeout)).answer)
        × (list.new ≡ open_list_of list.old token firstdata firstchannel timeout) }
{
    let at = places::lowest_free(&*list);
    let old = places::get(&*list, at);
    let made = session_opening::open(list.len(), at, token, old, firstdata, firstchannel, timeout);
    places::put(&mut *list, at, made.session);
    made.answer
}

// Closes a session for its owner. Its place is zero throughout afterwards, and free.
pub fn close(list: &mut [Session], number: u64, token: u64) -> Result<(), Refusal>
    ensures { (result ≡ (reached_by (outcome_of list.old number token [] closes)).answer)
        × (list.new ≡ list_of list.old number token [] closes) }
{
    let at = session::place_of(number);
    let old = places::get(&*list, at);
    let made = session_opening::close(list.len(), number, token, old);
    places::put(&mut *list, at, made.session);
    made.answer
}

// Receives one datagram into a session. store is the receiver's of that session, of 39,200 bytes.
pub fn receive(
    list: &mut [Session],
    number: u64,
    token: u64,
    store: &mut [u8],
    d: &[u8],
) -> Result<(), Refusal>
    ensures { (result ≡ (reached_by (outcome_of list.old number token store.old (calls (receives d.now)))).answer)
        × (list.new ≡ list_of list.old number token store.old (calls (receives d.now)))
        × (store.new ≡ (outcome_of list.old number token store.old (calls (receives d.now))).store) }
{
    let at = session::place_of(number);
    let old = places::get(&*list, at);
    let made = session_receiving::receive(list.len(), number, token, old, store, d);
    places::put(&mut *list, at, made.session);
    made.answer
}

// Takes the block due of a session into out. store is the receiver's of that session.
pub fn take(
    list: &mut [Session],
    number: u64,
    token: u64,
    store: &[u8],
    out: &mut [u8],
) -> Result<usize, Refusal>
    ensures { (result ≡ (filled_by (outcome_of list.old number token store.now (calls (takes (length out.old))))).answer)
        × (list.new ≡ list_of list.old number token store.now (calls (takes (length out.old))))
        × (out.new ≡ left_of (outcome_of list.old number token store.now (calls (takes (length out.old)))).answer (outcome_of list.old number token store.now (calls (takes (length out.old)))).bytes out.old) }
{
    let at = session::place_of(number);
    let old = places::get(&*list, at);
    let made = session_receiving::take(list.len(), number, token, old, store, out);
    places::put(&mut *list, at, made.session);
    made.answer
}

// Writes an acknowledgement of what has arrived in a session into out, with the caller's time stamp and gap; no place changes.
pub fn acknowledge(
    list: &[Session],
    number: u64,
    token: u64,
    stamp: u32,
    gap: u8,
    out: &mut [u8],
) -> Result<usize, Refusal>
    ensures { (result ≡ (filled_by (outcome_of list.now number token [] (calls (acknowledges stamp gap (length out.old))))).answer)
        × (out.new ≡ left_of (outcome_of list.now number token [] (calls (acknowledges stamp gap (length out.old)))).answer (outcome_of list.now number token [] (calls (acknowledges stamp gap (length out.old)))).bytes out.old) }
{
    let at = session::place_of(number);
    let old = places::get(list, at);
    session_receiving::acknowledge(list.len(), number, token, old, stamp, gap, out)
}

// Sends a new block in a session at a tick: writes its datagram into out. store is the sender's of that session, of 39,200 bytes.
pub fn send(
    list: &mut [Session],
    number: u64,
    token: u64,
    store: &mut [u8],
    tick: u32,
    block: &[u8],
    out: &mut [u8],
) -> Result<usize, Refusal>
    ensures { (result ≡ (filled_by (outcome_of list.old number token store.old (calls (sends tick block.now (length out.old))))).answer)
        × (list.new ≡ list_of list.old number token store.old (calls (sends tick block.now (length out.old))))
        × (store.new ≡ (outcome_of list.old number token store.old (calls (sends tick block.now (length out.old)))).store)
        × (out.new ≡ left_of (outcome_of list.old number token store.old (calls (sends tick block.now (length out.old)))).answer (outcome_of list.old number token store.old (calls (sends tick block.now (length out.old)))).bytes out.old) }
{
    let at = session::place_of(number);
    let old = places::get(&*list, at);
    let made = session_sending::send(list.len(), number, token, old, store, tick, block, out);
    places::put(&mut *list, at, made.session);
    made.answer
}

// Sends the lowest waiting block of a session again at a tick: writes its datagram into out. store is the sender's of that session.
pub fn resend(
    list: &mut [Session],
    number: u64,
    token: u64,
    store: &[u8],
    tick: u32,
    out: &mut [u8],
) -> Result<usize, Refusal>
    ensures { (result ≡ (filled_by (outcome_of list.old number token store.now (calls (resends tick (length out.old))))).answer)
        × (list.new ≡ list_of list.old number token store.now (calls (resends tick (length out.old))))
        × (out.new ≡ left_of (outcome_of list.old number token store.now (calls (resends tick (length out.old)))).answer (outcome_of list.old number token store.now (calls (resends tick (length out.old)))).bytes out.old) }
{
    let at = session::place_of(number);
    let old = places::get(&*list, at);
    let made = session_sending::resend(list.len(), number, token, old, store, tick, out);
    places::put(&mut *list, at, made.session);
    made.answer
}

// Finds what is lost in a session at a tick, and answers how many.
pub fn sweep(list: &mut [Session], number: u64, token: u64, tick: u32) -> Result<u32, Refusal>
    ensures { (result ≡ (counted_by (outcome_of list.old number token [] (calls (sweeps tick)))).answer)
        × (list.new ≡ list_of list.old number token [] (calls (sweeps tick))) }
{
    let at = session::place_of(number);
    let old = places::get(&*list, at);
    let made = session_sending::sweep(list.len(), number, token, old, tick);
    places::put(&mut *list, at, made.session);
    made.answer
}
