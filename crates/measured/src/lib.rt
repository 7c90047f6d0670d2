// The host's calls, exported one after another in loops, so that `host/bench` can time them beside a plain program and compare every answer.
// Datagrams, or blocks, stand one after another in lent bytes, and `ends` says where each ends. As many calls are made as there are both ends
// and places for answers. The loops stand in crates of their own, `repeated_read` to `repeated_take`.
#![tactic(auto)]

ghost use Rattle.std.specs.Prelude.{◌≡◌, min, length};
ghost use Rattle.wire.specs.Read.{read_of};
ghost use Rattle.sender.specs.Acknowledge.{acknowledge_answer, acknowledge_of};
ghost use Rattle.endpoint.specs.Receive.{halves, receive_answer, receive_of};
ghost use Rattle.repeating.specs.Calls.{on_part, each_time, after, answered};
ghost use Rattle.repeating.specs.Steps.{sending_of, send_step, send_number, taking_of, take_step, take_number};
ghost use Rattle.repeated_read.specs.Told.{told_of};

use receiver::Receiver;
use repeated_read::Told;
use repeated_receive::Both;
use sender::Sender;

// Reads one datagram. (The caller loops: of answers that are only added up a compiler might compute less.)
#[unsafe(no_mangle)]
pub extern "C" fn measured_read(d: &[u8]) -> Told
    ensures { result ≡ told_of (read_of d.now) }
{
    repeated_read::read(d)
}

// Takes datagrams into the sender's half alone.
#[unsafe(no_mangle)]
pub extern "C" fn measured_acknowledge(
    s: Sender,
    bytes: &[u8],
    ends: &[u32],
    answers: &mut [u8],
) -> Sender
    ensures record { result ≡ after (on_part (acknowledge_of 32 32) bytes.now ends.now) s (min (length ends.now) (length answers.old)) }
    ensures answers { answers.new
        ≡ answered (on_part (acknowledge_of 32 32) bytes.now ends.now) (on_part (acknowledge_answer 32 32) bytes.now ends.now) s
        answers.old (min (length ends.now) (length answers.old)) }
{
    repeated_acknowledge::acknowledge(s, bytes, ends, answers)
}

// Receives datagrams into both halves.
#[unsafe(no_mangle)]
pub extern "C" fn measured_receive(
    s: Sender,
    r: Receiver,
    store: &mut [u8],
    bytes: &[u8],
    ends: &[u32],
    answers: &mut [u8],
) -> Both
    ensures record { halves result.sender result.receiver store.new
        ≡ after (on_part (receive_of 32 32) bytes.now ends.now) (halves s r store.old) (min (length ends.now) (length answers.old)) }
    ensures answers { answers.new
        ≡ answered (on_part (receive_of 32 32) bytes.now ends.now) (on_part (receive_answer 32 32) bytes.now ends.now)
        (halves s r store.old) answers.old (min (length ends.now) (length answers.old)) }
{
    repeated_receive::receive(s, r, store, bytes, ends, answers)
}

// Sends new blocks at one tick, each datagram over the one before it in out.
#[unsafe(no_mangle)]
pub extern "C" fn measured_send(
    s: Sender,
    store: &mut [u8],
    tick: u32,
    bytes: &[u8],
    ends: &[u32],
    out: &mut [u8],
    answers: &mut [u32],
) -> Sender
    ensures record { sending_of result store.new out.new
        ≡ after (on_part (send_step tick) bytes.now ends.now) (sending_of s store.old out.old)
        (min (length ends.now) (length answers.old)) }
    ensures answers { answers.new
        ≡ answered (on_part (send_step tick) bytes.now ends.now) (on_part send_number bytes.now ends.now)
        (sending_of s store.old out.old) answers.old (min (length ends.now) (length answers.old)) }
{
    repeated_send::send(s, store, tick, bytes, ends, out, answers)
}

// Takes as many blocks as there are places for answers, each over the one before it in out.
#[unsafe(no_mangle)]
pub extern "C" fn measured_take(
    r: Receiver,
    store: &[u8],
    out: &mut [u8],
    answers: &mut [u32],
) -> Receiver
    ensures record { taking_of result out.new
        ≡ after (each_time (take_step store.now)) (taking_of r out.old) (length answers.old) }
    ensures answers { answers.new
        ≡ answered (each_time (take_step store.now)) (each_time (take_number store.now)) (taking_of r out.old)
        answers.old (length answers.old) }
{
    repeated_take::take(r, store, out, answers)
}
