//! Any deed on the queues of a machine, done at once.

ghost use Rattle.std.specs.Prelude.{◌≡◌, ◌≢◌, ◌<◌, length, true};
ghost use Rattle.eevdf_ops.specs.{Machine.queue_at, Outcome.machine_of};
ghost use Rattle.eevdf_ops.specs.{PickDepths.HasPickDepth, Places.AreCpus, Places.IsPlaced};
ghost use Rattle.eevdf_ops.specs.{Setup.is_allowed, Transfers.NoneTwice};
ghost use Rattle.eevdf_ops.specs.declared.acts.Act.TheVariants as act;
ghost use Rattle.eevdf_ops.specs.Whole as operation;

use crate::acts::{Act, Transfer};
use crate::cpu_id::CpuId;
use crate::deeds::{Answer, Deed};
use crate::parting::parted;
use eevdf_queue::Queue;

/// Does a deed on the queues of a machine whose tasks have these homes.
pub(crate) fn whole(homes: &[CpuId], deed: Deed, queues: &mut [Queue]) -> Answer
    requires allowed { is_allowed (length queues.old) homes.now deed ≡ true }
    requires cpus { AreCpus (length queues.old) homes.now }
    requires placed { IsPlaced homes.now (machine_of queues.old) }
    ensures answer { result ≡ (operation.whole homes.now deed (machine_of queues.old)).0 }
    ensures machine { machine_of queues.new
        ≡ (operation.whole homes.now deed (machine_of queues.old)).1 }
    ensures depth { HasPickDepth (machine_of queues.old) deed queues.new }
{
    let (cpu, act) = parted(homes, deed);
    match act {
        Act::Local(act) => {
            let queue = &mut queues[cpu.index()];
            act.apply(queue)
        }
        Act::Transfer(other, transfer) => across(queues, cpu, other, transfer),
    }
}

/// Does an act of a CPU across its queue and another one. It stands apart, so that deeds on one queue save no registers for it.
#[inline(never)]
fn across(queues: &mut [Queue], cpu: CpuId, other: CpuId, transfer: Transfer) -> Answer
    requires cpu { cpu < length queues.old }
    requires other { other < length queues.old }
    requires apart { other ≢ cpu }
    requires once { NoneTwice (queue_at (machine_of queues.old) cpu)
        (queue_at (machine_of queues.old) other) }
    ensures answer { result
        ≡ (operation.done_at cpu (act.Transfer other transfer) (machine_of queues.old)).0 }
    ensures machine { machine_of queues.new
        ≡ (operation.done_at cpu (act.Transfer other transfer) (machine_of queues.old)).1 }
{
    if cpu.index() < other.index() {
        let (front, back) = queues.split_at_mut(other.index());
        let queue = &mut front[cpu.index()];
        let other_queue = &mut back[0];
        transfer.apply(queue, other_queue)
    } else {
        let (front, back) = queues.split_at_mut(cpu.index());
        let queue = &mut back[0];
        let other_queue = &mut front[other.index()];
        transfer.apply(queue, other_queue)
    }
}
