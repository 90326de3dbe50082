//! What a CPU decides before a pull: whether it takes the candidate of the source.

ghost use Rattle.std.specs.Prelude.{◌≡◌, ◌+◌, nat_lt, Err, IsTrue};
ghost use Rattle.eevdf_weight.specs.Weight.{weight_of};
ghost use Rattle.eevdf_ops.specs.declared.deeds.Answer.TheVariants.{Balanced};
ghost use Rattle.eevdf_ops.specs.WholePull as whole;
ghost use Rattle.eevdf_ops.specs.WholePull.{task_of};

use crate::deeds::Answer;
use eevdf_queue::{Queue, TaskId};
use eevdf_weight::{Nice, weight};

/// The task that the CPU takes, or why it takes none.
pub fn decide(puller: &Queue, source: &Queue) -> Result<TaskId, Answer>
    ensures { result ≡ task_of (whole.decision puller.now.state
        (whole.load_of source.now.state) (whole.offer source.now.state)) }
{
    if is_surely_balanced(puller, source) {
        Err(Answer::Balanced)
    } else {
        weigh(puller, source)
    }
}

/// Whether the source is no heavier and a task waits there, by the counts alone: of two runnable tasks one waits. So nothing of the
/// source's tree need be read, which another processor may have in its cache.
fn is_surely_balanced(puller: &Queue, source: &Queue) -> bool
    ensures { IsTrue result → whole.decision puller.now.state
        (whole.load_of source.now.state) (whole.offer source.now.state) ≡ Err Balanced }
{
    source.len() > 1 && source.load() <= puller.load()
}

/// The task that the CPU takes, or why it takes none, by what the source offers.
fn weigh(puller: &Queue, source: &Queue) -> Result<TaskId, Answer>
    ensures { result ≡ task_of (whole.decision puller.now.state
        (whole.load_of source.now.state) (whole.offer source.now.state)) }
{
    let Some(offer) = source.offer() else {
        return Err(Answer::Nothing);
    };
    if !is_lighter(puller.load(), offer.nice(), source.load()) {
        return Err(Answer::Balanced);
    }
    if puller.can_place(offer.nice(), offer.slice(), offer.lag()) {
        Ok(offer.task())
    } else {
        Err(Answer::Range)
    }
}

/// Whether a load stays below the source's with a task of this nice level.
fn is_lighter(load: u64, nice: Nice, source_load: u64) -> bool
    ensures { result ≡ nat_lt (load + weight_of nice) source_load }
{
    // no sum of the load and the weight, which 64 bits might not hold
    weight(nice) < source_load.saturating_sub(load)
}
