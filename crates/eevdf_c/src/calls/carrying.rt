//! A task in the caller's hand, on its way between two queues.

ghost use Rattle.std.specs.Prelude.{◌≡◌, Some, None, true};
ghost use Rattle.eevdf_c.specs.Errors.{KeepsOnError};
ghost use Rattle.eevdf_c.specs.Hands as hands;
ghost use Rattle.eevdf_c.specs.ParcelOut as parcels;
ghost use Rattle.eevdf_c.specs.Codes.{done};
ghost use Rattle.eevdf_queue.specs.Lag.{is_lag};

use crate::calls::coming::refusal_code;
use crate::calls::leaving::taken_out;
use crate::codes::{ABSENT, BUSY, DONE, INVALID, PRESENT};
use crate::hand::Hand;
use crate::opened::Opened;
use crate::parcel_out::ParcelOut;
use eevdf_queue::{Refused, TaskId};

/// The number of the task in a hand.
pub fn hand_task(hand: &Hand) -> i64
    ensures { result ≡ hands.hand_task hand.now }
{
    match &hand.parcel {
        Some(parcel) => parcel.task().get() as i64,
        None => ABSENT,
    }
}

/// What the task in a hand has, which `out` gets. Where the hand is empty `out` stays as it was.
pub fn hand_parcel(hand: &Hand, out: &mut ParcelOut) -> i64
    ensures answer { result ≡ parcels.parcel hand.now }
    ensures told { out.new ≡ parcels.told_parcel out.old hand.now }
    ensures kept { KeepsOnError result out.old out.new }
    ensures limited { result ≡ done → is_lag out.new.lag out.new.nice out.new.slice_ns ≡ true }
{
    match &hand.parcel {
        Some(parcel) => {
            *out = ParcelOut::of(parcel);
            DONE
        }
        None => ABSENT,
    }
}

/// The task in a hand gets another number.
pub fn hand_renumber(hand: &mut Hand, number: u64) -> i64
    ensures answer { result ≡ (hands.renumber hand.old number).0 }
    ensures hand { hand.new ≡ (hands.renumber hand.old number).1 }
    ensures kept { KeepsOnError result hand.old hand.new }
{
    match TaskId::new(number) {
        Some(task) => renumber_task(hand, task),
        None => INVALID,
    }
}

fn renumber_task(hand: &mut Hand, task: TaskId) -> i64
    ensures answer { result ≡ (hands.renumber_by hand.old (Some task)).0 }
    ensures hand { hand.new ≡ (hands.renumber_by hand.old (Some task)).1 }
{
    match hand.parcel.take() {
        Some(parcel) => {
            hand.fill(parcel.with_number(task));
            DONE
        }
        None => ABSENT,
    }
}

/// Ends the task in a hand, if there is one.
pub fn hand_close(hand: &mut Hand)
    ensures { hand.new ≡ None }
{
    hand.close();
}

/// A task goes from a queue into an empty hand, with its lag.
pub fn take(opened: &mut Opened, hand: &mut Hand, number: u64) -> i64
    ensures answer { result ≡ (hands.take opened.old hand.old number).answer }
    ensures queue { opened.new ≡ (hands.take opened.old hand.old number).queue }
    ensures hand { hand.new ≡ (hands.take opened.old hand.old number).hand }
    ensures kept { KeepsOnError result opened.old opened.new }
    ensures held { KeepsOnError result hand.old hand.new }
{
    let Some(task) = TaskId::new(number) else {
        return INVALID;
    };
    if hand.parcel.is_some() {
        return BUSY;
    }
    match taken_out(&mut opened.queue, task) {
        Some(taken) => {
            hand.fill(taken);
            DONE
        }
        None => ABSENT,
    }
}

/// The task of a hand becomes runnable, placed with its lag.
pub fn put(opened: &mut Opened, hand: &mut Hand) -> i64
    ensures answer { result ≡ (hands.put opened.old hand.old).answer }
    ensures queue { opened.new ≡ (hands.put opened.old hand.old).queue }
    ensures hand { hand.new ≡ (hands.put opened.old hand.old).hand }
    ensures kept { KeepsOnError result opened.old opened.new }
    ensures held { KeepsOnError result hand.old hand.new }
{
    let Some(parcel) = hand.parcel.take() else {
        return ABSENT;
    };
    match opened.queue.try_attach(parcel) {
        Ok(()) => DONE,
        Err(Refused { parcel, reason }) => {
            hand.fill(parcel);
            refusal_code(reason)
        }
    }
}

/// The task of a hand falls asleep, with its lag.
pub fn put_asleep(opened: &mut Opened, hand: &mut Hand) -> i64
    ensures answer { result ≡ (hands.put_asleep opened.old hand.old).answer }
    ensures queue { opened.new ≡ (hands.put_asleep opened.old hand.old).queue }
    ensures hand { hand.new ≡ (hands.put_asleep opened.old hand.old).hand }
    ensures kept { KeepsOnError result opened.old opened.new }
    ensures held { KeepsOnError result hand.old hand.new }
{
    let Some(held) = hand.parcel.take() else {
        return ABSENT;
    };
    if opened.queue.contains(held.task()) {
        hand.fill(held);
        return PRESENT;
    }
    opened.queue.put_asleep(held);
    DONE
}
