// The list of forty by value, for programs that keep it so: each function lends its own copy of the list to the call of `sessions` of the same name, and gives that copy
// back. Two lists that are not of forty, of 39 and of 41, can be tried too.
#![tactic(auto)]

ghost use Rattle.std.specs.Prelude.{◌≡◌, [], length, replicate};
ghost use Rattle.common.specs.Answer.{left_of};
ghost use Rattle.endpoint.specs.Calls.{receives, takes, acknowledges, sends, resends, sweeps};
ghost use Rattle.session.specs.Call.{calls, closes};
ghost use Rattle.session.specs.Place.{blank};
ghost use Rattle.session.specs.List.{outcome_of, list_of, opening_at, open_list_of};
ghost use Rattle.session.specs.Shapes.{reached_by, filled_by, counted_by, opened_by};

use common::Refusal;
use session::Session;

// What a call answers, and the list after it. T is what an accepted call tells: nothing, how many bytes it wrote, how many became lost, or the
// session's number.
#[derive(Clone, Copy)]
pub struct After<T> {
    // The refusal, or what is told.
    pub answer: Result<T, Refusal>,
    // The list afterwards.
    pub list: [Session; 40],
}

// Opens a session at the lowest free place.
pub fn open(
    mut list: [Session; 40],
    token: u64,
    firstdata: u32,
    firstchannel: u32,
    timeout: u32,
) -> After<u64>
    ensures { result ≡ record { answer = (opened_by (opening_at list token firstdata firstchannel timeout)).answer; list = open_list_of list token firstdata firstchannel timeout } }
{
    let answer = sessions::open(&mut list, token, firstdata, firstchannel, timeout);
    After { answer, list }
}

// Closes a session for its owner.
pub fn close(mut list: [Session; 40], number: u64, token: u64) -> After<()>
    ensures { result ≡ record { answer = (reached_by (outcome_of list number token [] closes)).answer; list = list_of list number token [] closes } }
{
    let answer = sessions::close(&mut list, number, token);
    After { answer, list }
}

// Receives one datagram into a session.
pub fn receive(
    mut list: [Session; 40],
    number: u64,
    token: u64,
    store: &mut [u8],
    d: &[u8],
) -> After<()>
    ensures { (result ≡ record { answer = (reached_by (outcome_of list number token store.old (calls (receives d.now)))).answer; list = list_of list number token store.old (calls (receives d.now)) })
        × (store.new ≡ (outcome_of list number token store.old (calls (receives d.now))).store) }
{
    let answer = sessions::receive(&mut list, number, token, store, d);
    After { answer, list }
}

// Takes the block due of a session.
pub fn take(
    mut list: [Session; 40],
    number: u64,
    token: u64,
    store: &[u8],
    out: &mut [u8],
) -> After<usize>
    ensures { (result ≡ record { answer = (filled_by (outcome_of list number token store.now (calls (takes (length out.old))))).answer; list = list_of list number token store.now (calls (takes (length out.old))) })
        × (out.new ≡ left_of (outcome_of list number token store.now (calls (takes (length out.old)))).answer (outcome_of list number token store.now (calls (takes (length out.old)))).bytes out.old) }
{
    let answer = sessions::take(&mut list, number, token, store, out);
    After { answer, list }
}

// Writes an acknowledgement of what has arrived in a session.
pub fn acknowledge(
    list: [Session; 40],
    number: u64,
    token: u64,
    stamp: u32,
    gap: u8,
    out: &mut [u8],
) -> Result<usize, Refusal>
    ensures { (result ≡ (filled_by (outcome_of list number token [] (calls (acknowledges stamp gap (length out.old))))).answer)
        × (out.new ≡ left_of (outcome_of list number token [] (calls (acknowledges stamp gap (length out.old)))).answer (outcome_of list number token [] (calls (acknowledges stamp gap (length out.old)))).bytes out.old) }
{
    sessions::acknowledge(&list, number, token, stamp, gap, out)
}

// Sends a new block in a session.
pub fn send(
    mut list: [Session; 40],
    number: u64,
    token: u64,
    store: &mut [u8],
    tick: u32,
    block: &[u8],
    out: &mut [u8],
) -> After<usize>
    ensures { (result ≡ record { answer = (filled_by (outcome_of list number token store.old (calls (sends tick block.now (length out.old))))).answer; list = list_of list number token store.old (calls (sends tick block.now (length out.old))) })
        × (store.new ≡ (outcome_of list number token store.old (calls (sends tick block.now (length out.old)))).store)
        × (out.new ≡ left_of (outcome_of list number token store.old (calls (sends tick block.now (length out.old)))).answer (outcome_of list number token store.old (calls (sends tick block.now (length out.old)))).bytes out.old) }
{
    let answer = sessions::send(&mut list, number, token, store, tick, block, out);
    After { answer, list }
}

// Sends the lowest waiting block of a session again.
pub fn resend(
    mut list: [Session; 40],
    number: u64,
    token: u64,
    store: &[u8],
    tick: u32,
    out: &mut [u8],
) -> After<usize>
    ensures { (result ≡ record { answer = (filled_by (outcome_of list number token store.now (calls (resends tick (length out.old))))).answer; list = list_of list number token store.now (calls (resends tick (length out.old))) })
        × (out.new ≡ left_of (outcome_of list number token store.now (calls (resends tick (length out.old)))).answer (outcome_of list number token store.now (calls (resends tick (length out.old)))).bytes out.old) }
{
    let answer = sessions::resend(&mut list, number, token, store, tick, out);
    After { answer, list }
}

// Finds what is lost in a session.
pub fn sweep(mut list: [Session; 40], number: u64, token: u64, tick: u32) -> After<u32>
    ensures { result ≡ record { answer = (counted_by (outcome_of list number token [] (calls (sweeps tick)))).answer; list = list_of list number token [] (calls (sweeps tick)) } }
{
    let answer = sessions::sweep(&mut list, number, token, tick);
    After { answer, list }
}

// The four below differ in the length of the list that they lend. Each is one call, so that a function over the length would only be one call more.

// An opening on a list of 39 free places.
pub fn open_39(token: u64, firstdata: u32, firstchannel: u32, timeout: u32) -> Result<u64, Refusal>
    ensures { result ≡ (opened_by (opening_at (replicate 39 blank) token firstdata firstchannel timeout)).answer }
{
    sessions::open(
        &mut [session::free(); 39],
        token,
        firstdata,
        firstchannel,
        timeout,
    )
}

// An opening on a list of 41 free places.
pub fn open_41(token: u64, firstdata: u32, firstchannel: u32, timeout: u32) -> Result<u64, Refusal>
    ensures { result ≡ (opened_by (opening_at (replicate 41 blank) token firstdata firstchannel timeout)).answer }
{
    sessions::open(
        &mut [session::free(); 41],
        token,
        firstdata,
        firstchannel,
        timeout,
    )
}

// A closing on a list of 39 free places.
pub fn close_39(number: u64, token: u64) -> Result<(), Refusal>
    ensures { result ≡ (reached_by (outcome_of (replicate 39 blank) number token [] closes)).answer }
{
    sessions::close(&mut [session::free(); 39], number, token)
}

// A closing on a list of 41 free places.
pub fn close_41(number: u64, token: u64) -> Result<(), Refusal>
    ensures { result ≡ (reached_by (outcome_of (replicate 41 blank) number token [] closes)).answer }
{
    sessions::close(&mut [session::free(); 41], number, token)
}
