// What a packet's numbers bring the receiver, judged on the record as given. Nothing is changed.
#![tactic(auto)]

ghost use Rattle.std.specs.Prelude.{◌≡◌, true, ◌≤◌};
ghost use Rattle.common.specs.Answer.{answered_of};
ghost use Rattle.numbers.specs.Widen.{widen_of};
ghost use Rattle.numbers.specs.Full.{past_highest};
ghost use Rattle.receiver.specs.Consistent.{consistent_of};
ghost use Rattle.receiver.specs.Packet.{numbers_answer};
ghost use Rattle.receiver.specs.Receive.{in_place, if_flagged};
ghost use Rattle.judging.specs.Judge.{found_as, waived_at, judged_of};

use common::Refusal;
use numbers::{ChannelNumber, DataNumber, Number, Widened};
use receiver::Receiver;
use wire::{Values, bits};

// What an accepted packet brings, its numbers widened.
#[derive(Clone, Copy)]
pub enum Arrived {
    // Neither data nor an AckOfAcks.
    Nothing,
    // An AckOfAcks alone: all below is waived.
    Waiver(DataNumber),
    // A block: its data number, its channel number, and the number below which all is waived.
    Content(DataNumber, ChannelNumber, DataNumber),
}

// The number that a field stands for, seen from a reference of its kind; none where it is out of place.
fn number_at<N: Number>(reference: N, first: N, field: u16) -> Option<N>
    requires { N.full reference ≤ past_highest }
    ensures { result ≡ found_as N.of (in_place (N.full first) (widen_of (N.full reference) field)) }
{
    let wide = N::widen(reference, field);
    let out = wide.out_of_place(first);
    match wide {
        Widened::At(n) if !out => Some(n),
        _ => None,
    }
}

// The number below which all is waived; 0 where no AckOfAcks is flagged.
fn waived_to(flag: bool, base: DataNumber, first: DataNumber, field: u16) -> Option<DataNumber>
    requires { base.0 ≤ past_highest }
    ensures { result ≡ waived_at (if_flagged flag (in_place first.0 (widen_of base.0 field))) }
{
    if flag {
        number_at(base, first, field)
    } else {
        Some(DataNumber(0))
    }
}

// Judges a packet by its numbers: refused with 7 where one is out of place.
fn number_answer(
    base: DataNumber,
    due: ChannelNumber,
    v: DataNumber,
    n: DataNumber,
    c: ChannelNumber,
) -> Result<(), Refusal>
    requires { (base.0 ≤ past_highest) × (due.0 ≤ past_highest) }
    ensures { result ≡ answered_of (numbers_answer 32 base.0 due.0 v.0 n.0 c.0) }
{
    if numbers::HIGHEST < v.0 {
        return Err(Refusal::OutOfPlace);
    }
    if numbers::HIGHEST < n.0 {
        return Err(Refusal::OutOfPlace);
    }
    if base.0.max(v.0) + DataNumber::WINDOW <= n.0 {
        return Err(Refusal::OutOfPlace);
    }
    if numbers::HIGHEST < c.0 {
        return Err(Refusal::OutOfPlace);
    }
    if due.0 + ChannelNumber::WINDOW <= c.0 {
        return Err(Refusal::OutOfPlace);
    }
    Ok(())
}

// Judges what a packet's values bring the receiver: refused with 7 where a number is out of place. Nothing is changed.
pub fn judge(r: Receiver, v: Values) -> Result<Arrived, Refusal>
    requires { consistent_of 32 32 r ≡ true }
    ensures { result ≡ judged_of 32 r v }
{
    let base = r.base;
    let first = r.firstdata;
    let aoa = bits::flag(v.flags, wire::AOA);
    if bits::flag(v.flags, wire::DATA) {
        let Some(u) = waived_to(aoa, base, first, v.aoa) else {
            return Err(Refusal::OutOfPlace);
        };
        let Some(n) = number_at(base, first, v.number) else {
            return Err(Refusal::OutOfPlace);
        };
        let Some(c) = number_at(r.due, r.firstchannel, v.channel) else {
            return Err(Refusal::OutOfPlace);
        };
        number_answer(base, r.due, u, n, c)?;
        return Ok(Arrived::Content(n, c, u));
    }
    if aoa {
        let Some(u) = number_at(base, first, v.aoa) else {
            return Err(Refusal::OutOfPlace);
        };
        if numbers::HIGHEST < u.0 {
            return Err(Refusal::OutOfPlace);
        }
        return Ok(Arrived::Waiver(u));
    }
    Ok(Arrived::Nothing)
}
