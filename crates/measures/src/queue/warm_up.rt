use crate::queue::answer_words::{of_task, of_tick};
use crate::queue::checksum::Checksum;
use crate::queue::turn_values::TurnValues;
use eevdf_queue::Queue;

/// A pick, and then 4096 ticks and picks, before the turns of any mix.
pub fn warm_up(queue: &mut Queue, values: &TurnValues, checksum: &mut Checksum) {
    let _ = queue.pick();
    for turn in 0..4096 {
        checksum.add(of_tick(queue.tick(values.length_at(turn))));
        checksum.add(of_task(queue.pick()));
    }
}
