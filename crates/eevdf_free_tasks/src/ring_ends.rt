//! What goes to other CPUs, and what comes back from them.

ghost use Rattle.std.specs.Prelude.{◌≡◌, ◌<◌, ◌≤◌, ◌+◌, ◌∷◌, [], ◌++◌, length, map, slice_index_or, slice_set, IsFalse, IsTrue};
ghost use Rattle.rtrb.specs.Ring.{known_free, known_items, received, sent, SameConsumer};
ghost use Rattle.eevdf_free_tasks.specs.Parts.{AreEmpty, HasCome, HaveCome};

use crate::free_tasks::FreeTasks;
use eevdf_queue::TaskId;
use rtrb::{Consumer, Producer};

/// Gives back all numbers that are seen in a ring.
pub(crate) fn receive(consumer: &mut Consumer<TaskId>, own: &mut FreeTasks)
    ensures ring { SameConsumer consumer.old consumer.new }
    ensures come { HasCome (received consumer.old) (received consumer.new) own.old own.new }
    ensures emptied { known_items consumer.new ≡ [] }
{
    let count = consumer.slots();
    for _ in 0..count {
        let task = consumer.pop_known();
        let _ = own.set_free(task);
    }
}

/// Gives back all numbers that are seen in the rings of all senders, one after the other.
pub(crate) fn receive_all(consumers: &mut Vec<Consumer<TaskId>>, own: &mut FreeTasks)
    ensures come { HaveCome (length consumers.old.items) (map received consumers.old.items)
        (map received consumers.new.items) own.old own.new }
    ensures emptied { AreEmpty (map known_items consumers.new.items) }
{
    for sender in 0..consumers.len() {
        receive(&mut consumers[sender], own);
    }
}

/// Pushes a number into the ring to a home. `false`, and nothing changes, where there is no such ring, or no place in it is known to be
/// free.
#[tactic(auto, using(crate::proofs::Comings::end_more, crate::proofs::Comings::end_same, crate::proofs::Comings::others_same, crate::proofs::Comings::one_less))]
pub(crate) fn push_to(producers: &mut Vec<Producer<TaskId>>, home: usize, task: TaskId) -> bool
    ensures pushed { IsTrue result → map sent producers.new.items
        ≡ slice_set (map sent producers.old.items) home (slice_index_or (map sent producers.old.items) home [] ++ task ∷ []) }
    ensures free { IsTrue result → map known_free producers.new.items ≡ slice_set (map known_free producers.old.items) home
        (slice_index_or (map known_free producers.new.items) home 0) }
    ensures one { IsTrue result → slice_index_or (map known_free producers.old.items) home 0
        ≤ slice_index_or (map known_free producers.new.items) home 0 + 1 }
    ensures full { IsFalse result → slice_index_or (map known_free producers.old.items) home 0 ≡ 0 }
    ensures unchanged { IsFalse result → map sent producers.new.items ≡ map sent producers.old.items }
    ensures free_unchanged { IsFalse result → map known_free producers.new.items ≡ map known_free producers.old.items }
{
    if home >= producers.len() {
        return false;
    }
    push(&mut producers[home], task)
}

/// Pushes a number into a ring. `false`, and nothing changes, where no place in it is known to be free.
fn push(end: &mut Producer<TaskId>, task: TaskId) -> bool
    ensures pushed { IsTrue result → sent end.new ≡ sent end.old ++ task ∷ [] }
    ensures one { IsTrue result → known_free end.old ≤ known_free end.new + 1 }
    ensures full { IsFalse result → known_free end.old ≡ 0 }
    ensures unchanged { IsFalse result → sent end.new ≡ sent end.old }
    ensures free { IsFalse result → known_free end.new ≡ known_free end.old }
{
    match end.push(task) {
        Ok(()) => true,
        Err(_) => false,
    }
}
