// Datagrams one after another, taken into the sender's half alone.
#![tactic(auto)]

ghost use Rattle.std.specs.Prelude.{◌≡◌, min, length};
ghost use Rattle.sender.specs.Acknowledge.{acknowledge_answer, acknowledge_of};
ghost use Rattle.repeating.specs.Calls.{on_part, after, answered};

use sender::Sender;

// Takes datagrams into the sender's half alone.
pub fn acknowledge(s: Sender, bytes: &[u8], ends: &[u32], answers: &mut [u8]) -> Sender
    ensures record { result ≡ after (on_part (acknowledge_of 32 32) bytes.now ends.now) s (min (length ends.now) (length answers.old)) }
    ensures answers { answers.new
        ≡ answered (on_part (acknowledge_of 32 32) bytes.now ends.now) (on_part (acknowledge_answer 32 32) bytes.now ends.now) s
        answers.old (min (length ends.now) (length answers.old)) }
{
    let mut q = s;
    let mut from: usize = 0;
    for i in 0..ends.len().min(answers.len()) {
        let end = repeating::end_of(from, ends[i], bytes.len());
        let x = acknowledging::acknowledge(q, &bytes[from..end]);
        answers[i] = common::number(x.answer);
        q = x.sender;
        from = end;
    }
    q
}
