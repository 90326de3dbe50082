//! How a queue is emptied: its tasks end, or leave one by one.

ghost use Rattle.std.specs.Prelude.{◌≡◌, ◌↔◌, ℕ, suc, ◌+◌, ◌<◌, pos, Some, None};
ghost use Rattle.eevdf_queue.specs.{Leaving.IsNowhere, Numbers.number_limit};
ghost use Rattle.eevdf_queue.specs.Closing.{IsWithoutTasks, task_count};
ghost use Rattle.eevdf_c.specs.{Codes.absent, Errors.KeepsOnError};
ghost use Rattle.eevdf_c.specs.Hands as hands;
ghost use Rattle.eevdf_c.specs.Leaving.{AreGone, IsEmptied, closed, end_by};

use crate::calls::leaving::end_task;
use crate::codes::{ABSENT, BUSY};
use crate::hand::Hand;
use crate::opened::Opened;
use eevdf_queue::{Queue, TaskId, laws};

/// Ends each task that is here, in ascending number. The virtual time is where the last of them left it.
pub fn close(opened: &mut Opened)
    ensures after { opened.new ≡ closed opened.old }
    ensures emptied { IsEmptied opened.new }
{
    end_all(&mut opened.queue);
}

#[tactic(auto, using(crate::proofs::Emptied::emptied, crate::proofs::Emptied::ended_next, crate::proofs::Emptied::ended_first))]
fn end_all(queue: &mut Queue)
    ensures after { queue.new.state ≡ closed queue.old.state }
    ensures emptied { IsEmptied queue.new.state }
{
    for number in 0..TaskId::COUNT as u64 {
        end_number(queue, number);
    }
    laws::every_queue(queue);
}

/// Ends the task of a number, if it is here, where those of lower numbers are gone.
fn end_number(queue: &mut Queue, number: u64)
    requires below { number < number_limit }
    requires before { AreGone queue.old.state number }
    ensures after { queue.new.state ≡ (end_by queue.old.state (Some number)).1 }
    ensures gone { AreGone queue.new.state (number + 1) }
{
    laws::every_queue(queue);
    if let Some(task) = TaskId::new(number) {
        let _ = end_task(queue, task);
    }
}

/// Some task goes from a queue into an empty hand, with its lag.
pub fn take_any(opened: &mut Opened, hand: &mut Hand) -> i64
    ensures answer { result ≡ (hands.take_any opened.old hand.old).answer }
    ensures queue { opened.new ≡ (hands.take_any opened.old hand.old).queue }
    ensures hand { hand.new ≡ (hands.take_any opened.old hand.old).hand }
    ensures empty { hand.old ≡ None → ((result ≡ absent) ↔ IsWithoutTasks opened.old) }
    ensures nowhere { (t : ℕ) → result ≡ pos t → IsNowhere opened.new t }
    ensures fewer { (t : ℕ) → result ≡ pos t → task_count opened.old ≡ suc (task_count opened.new) }
    ensures kept { KeepsOnError result opened.old opened.new }
    ensures held { KeepsOnError result hand.old hand.new }
{
    if hand.parcel.is_some() {
        return BUSY;
    }
    match opened.queue.take_any() {
        Some(parcel) => {
            let task = parcel.task();
            hand.fill(parcel);
            task.get() as i64
        }
        None => ABSENT,
    }
}
