//! A task on its way between two queues, in the caller's hand.

ghost use Rattle.std.specs.Prelude.{◌≡◌, ◌↔◌, ℕ, suc, pos, Option, None, true};
ghost use Rattle.std.specs.Borrow.{sem};
ghost use Rattle.eevdf_queue.specs.State.{State, Contents};
ghost use Rattle.eevdf_queue.specs.{Lag.is_lag, Leaving.IsNowhere};
ghost use Rattle.eevdf_queue.specs.Closing.{IsWithoutTasks, task_count};
ghost use Rattle.eevdf_c.specs.Memory.{hand_at, parcel_at, queue_at, room_for_hand};
ghost use Rattle.eevdf_c.specs.Errors.{KeepsOnError};
ghost use Rattle.eevdf_c.specs.Codes as answers;
ghost use Rattle.eevdf_c.specs.Hands as hands;
ghost use Rattle.eevdf_c.specs.ParcelOut as parcels;

use crate::calls;
use crate::hand::Hand;
use crate::opened::Opened;
use crate::parcel_out::ParcelOut;
use std::alloc::Global;

/// Opens an empty hand in memory of the caller's. Takes no memory.
#[unsafe(no_mangle)]
pub unsafe extern "C" fn eevdf_hand_open(alloc: Global, hand: *mut u8)
    requires* { sem 𝓛 (room_for_hand hand) }
    ensures* { sem 𝓛 (hand_at hand None) }
{
    (hand as *mut Hand).write(Hand::open(alloc));
}

/// The task in a hand. `ABSENT`: it is empty.
#[unsafe(no_mangle)]
pub unsafe extern "C" fn eevdf_hand_task(hand: *const u8) -> i64
    ghost h: { Option Contents }
    requires* { sem 𝓛 (hand_at hand h) }
    ensures* after { sem 𝓛 (hand_at hand h) }
    ensures answer { result ≡ hands.hand_task h }
{
    calls::carrying::hand_task(&*(hand as *const Hand))
}

/// What the task in a hand has, which `out` gets. Answers 0. `ABSENT`: the hand is empty.
#[unsafe(no_mangle)]
pub unsafe extern "C" fn eevdf_hand_parcel(hand: *const u8, out: *mut ParcelOut) -> i64
    ghost g: { Option Contents × parcels.ParcelOut }
    requires* hand { sem 𝓛 (hand_at hand g.0) }
    requires* out { sem 𝓛 (parcel_at out g.1) }
    ensures* after { sem 𝓛 (hand_at hand g.0) }
    ensures* told { sem 𝓛 (parcel_at out (parcels.told_parcel g.1 g.0)) }
    ensures answer { result ≡ parcels.parcel g.0 }
    ensures kept { KeepsOnError result g.1 (parcels.told_parcel g.1 g.0) }
    ensures limited { result ≡ answers.done → is_lag (parcels.told_parcel g.1 g.0).lag
        (parcels.told_parcel g.1 g.0).nice (parcels.told_parcel g.1 g.0).slice_ns ≡ true }
{
    calls::carrying::hand_parcel(&*(hand as *const Hand), &mut *out)
}

/// The task in a hand gets another number. Answers 0. `INVALID`: no task has the number; `ABSENT`: the hand is empty.
#[unsafe(no_mangle)]
pub unsafe extern "C" fn eevdf_hand_renumber(hand: *mut u8, task: u64) -> i64
    ghost h: { Option Contents }
    requires* { sem 𝓛 (hand_at hand h) }
    ensures* after { sem 𝓛 (hand_at hand (hands.renumber h task).1) }
    ensures answer { result ≡ (hands.renumber h task).0 }
    ensures kept { KeepsOnError result h (hands.renumber h task).1 }
{
    calls::carrying::hand_renumber(&mut *(hand as *mut Hand), task)
}

/// Ends the task in a hand, if there is one, and gives its memory back. The hand is then empty.
#[unsafe(no_mangle)]
pub unsafe extern "C" fn eevdf_hand_close(hand: *mut u8)
    ghost h: { Option Contents }
    requires* { sem 𝓛 (hand_at hand h) }
    ensures* { sem 𝓛 (hand_at hand None) }
{
    calls::carrying::hand_close(&mut *(hand as *mut Hand))
}

/// A task, running, runnable or asleep, goes from a queue into an empty hand, with its lag. Answers 0. `INVALID`: no task has the
/// number; `BUSY`: the hand is full; `ABSENT`: the task isn't here.
#[unsafe(no_mangle)]
pub unsafe extern "C" fn eevdf_take(queue: *mut u8, hand: *mut u8, task: u64) -> i64
    ghost g: { State × Option Contents }
    requires* queue { sem 𝓛 (queue_at queue g.0) }
    requires* hand { sem 𝓛 (hand_at hand g.1) }
    ensures* queue { sem 𝓛 (queue_at queue (hands.take g.0 g.1 task).queue) }
    ensures* hand { sem 𝓛 (hand_at hand (hands.take g.0 g.1 task).hand) }
    ensures answer { result ≡ (hands.take g.0 g.1 task).answer }
    ensures kept { KeepsOnError result g.0 (hands.take g.0 g.1 task).queue }
    ensures held { KeepsOnError result g.1 (hands.take g.0 g.1 task).hand }
{
    calls::carrying::take(
        &mut *(queue as *mut Opened),
        &mut *(hand as *mut Hand),
        task,
    )
}

/// Some task goes from a queue into an empty hand, with its lag: the one that a pick would let run, or, where none is runnable, the
/// sleeping one of lowest number. Answers its number. `BUSY`: the hand is full; `ABSENT`: no task is here.
#[unsafe(no_mangle)]
pub unsafe extern "C" fn eevdf_take_any(queue: *mut u8, hand: *mut u8) -> i64
    ghost g: { State × Option Contents }
    requires* queue { sem 𝓛 (queue_at queue g.0) }
    requires* hand { sem 𝓛 (hand_at hand g.1) }
    ensures* queue { sem 𝓛 (queue_at queue (hands.take_any g.0 g.1).queue) }
    ensures* hand { sem 𝓛 (hand_at hand (hands.take_any g.0 g.1).hand) }
    ensures answer { result ≡ (hands.take_any g.0 g.1).answer }
    ensures empty { g.1 ≡ None → ((result ≡ answers.absent) ↔ IsWithoutTasks g.0) }
    ensures nowhere { (t : ℕ) → result ≡ pos t → IsNowhere (hands.take_any g.0 g.1).queue t }
    ensures fewer { (t : ℕ) → result ≡ pos t
        → task_count g.0 ≡ suc (task_count (hands.take_any g.0 g.1).queue) }
    ensures kept { KeepsOnError result g.0 (hands.take_any g.0 g.1).queue }
    ensures held { KeepsOnError result g.1 (hands.take_any g.0 g.1).hand }
{
    calls::closing::take_any(&mut *(queue as *mut Opened), &mut *(hand as *mut Hand))
}

/// The task of a hand becomes runnable in a queue, placed with its lag. Answers 0, and the hand is empty. `ABSENT`: the hand is
/// empty; `PRESENT`: the task is here already; `RANGE`: its runtime or deadline would be out of range. On an error the hand keeps
/// the task.
#[unsafe(no_mangle)]
pub unsafe extern "C" fn eevdf_put(queue: *mut u8, hand: *mut u8) -> i64
    ghost g: { State × Option Contents }
    requires* queue { sem 𝓛 (queue_at queue g.0) }
    requires* hand { sem 𝓛 (hand_at hand g.1) }
    ensures* queue { sem 𝓛 (queue_at queue (hands.put g.0 g.1).queue) }
    ensures* hand { sem 𝓛 (hand_at hand (hands.put g.0 g.1).hand) }
    ensures answer { result ≡ (hands.put g.0 g.1).answer }
    ensures kept { KeepsOnError result g.0 (hands.put g.0 g.1).queue }
    ensures held { KeepsOnError result g.1 (hands.put g.0 g.1).hand }
{
    calls::carrying::put(&mut *(queue as *mut Opened), &mut *(hand as *mut Hand))
}

/// The task of a hand falls asleep in a queue, with its lag. Answers 0, and the hand is empty. `ABSENT`: the hand is empty;
/// `PRESENT`: the task is here already, and the hand keeps it.
#[unsafe(no_mangle)]
pub unsafe extern "C" fn eevdf_put_asleep(queue: *mut u8, hand: *mut u8) -> i64
    ghost g: { State × Option Contents }
    requires* queue { sem 𝓛 (queue_at queue g.0) }
    requires* hand { sem 𝓛 (hand_at hand g.1) }
    ensures* queue { sem 𝓛 (queue_at queue (hands.put_asleep g.0 g.1).queue) }
    ensures* hand { sem 𝓛 (hand_at hand (hands.put_asleep g.0 g.1).hand) }
    ensures answer { result ≡ (hands.put_asleep g.0 g.1).answer }
    ensures kept { KeepsOnError result g.0 (hands.put_asleep g.0 g.1).queue }
    ensures held { KeepsOnError result g.1 (hands.put_asleep g.0 g.1).hand }
{
    calls::carrying::put_asleep(&mut *(queue as *mut Opened), &mut *(hand as *mut Hand))
}
