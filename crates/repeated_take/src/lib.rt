// Blocks one after another, taken.
#![tactic(auto)]

ghost use Rattle.std.specs.Prelude.{◌≡◌, length};
ghost use Rattle.repeating.specs.Calls.{each_time, after, answered};
ghost use Rattle.repeating.specs.Steps.{taking_of, take_step, take_number};

use receiver::Receiver;
use taking::Taken;

// Takes as many blocks as there are places for answers, each over the one before it in out.
pub fn take(r: Receiver, store: &[u8], out: &mut [u8], answers: &mut [u32]) -> Receiver
    ensures record { taking_of result out.new
        ≡ after (each_time (take_step store.now)) (taking_of r out.old) (length answers.old) }
    ensures answers { answers.new
        ≡ answered (each_time (take_step store.now)) (each_time (take_number store.now)) (taking_of r out.old)
        answers.old (length answers.old) }
{
    // What a call gives back is kept whole, which spares a copy of the record.
    let mut x = Taken {
        receiver: r,
        written: Ok(0),
    };
    for turn in 0..answers.len() {
        x = taking::take(x.receiver, store, out);
        answers[turn] = repeating::number(x.written);
    }
    x.receiver
}
