//! Work for a CPU that has nothing to run: a sweep of the other CPUs.

ghost use Rattle.std.specs.Prelude.{◌≡◌, ◌≢◌, ◌+◌, ◌<◌, ◌≤◌, length, IfNone, IfSome};
ghost use Rattle.eevdf_ops.specs.{Numbers.cpu_limit, Outcome.machine_of};
ghost use Rattle.eevdf_balance.specs.Crowds.{IsIdle};
ghost use Rattle.eevdf_balance.specs.FindWork.{GivesFirst, NoneGives, NoneIsCrowded, turn_of};

use eevdf_ops::{Answer, CpuId, Deed, Solo};
use eevdf_queue::TaskId;

/// Pulls for a CPU from each other one in turn, from the next number on and then from 0 on, until one gives a task. It is called where the
/// CPU has nothing to run, and then the CPU picks: so the task that it has got runs.
///
/// `Some`: the task came from the first in turn that gives one. `None`: each of the others was tried, and the machine is as it was. If the
/// CPU has nothing then, none of them is crowded, whatever their tasks weigh, but for those whose pull is answered *range*: a rebase of
/// the CPU helps there. It takes no memory.
pub fn find_work(solo: &mut Solo, cpu: CpuId) -> Option<TaskId>
    requires { cpu < length solo.old.queues }
    ensures given { IfSome result (λ task.
        GivesFirst solo.old.homes (machine_of solo.old.queues) cpu task (machine_of solo.new.queues)) }
    ensures tried { IfNone result (NoneGives solo.old.homes (machine_of solo.old.queues) cpu) }
    ensures unchanged { IfNone result (machine_of solo.new.queues ≡ machine_of solo.old.queues) }
    ensures idle { IfNone result (IsIdle (machine_of solo.old.queues) cpu
        → NoneIsCrowded solo.old.homes (machine_of solo.old.queues) cpu) }
    ensures homes { solo.new.homes ≡ solo.old.homes }
    ensures cpus { length solo.new.queues ≡ length solo.old.queues }
{
    for steps in 1..CpuId::COUNT {
        let source = cpu_after(cpu, steps);
        if solo.has_cpu(source) {
            let answer = solo.apply(Deed::Pull { cpu, source });
            if let Answer::Pulled(task) = answer {
                return Some(task);
            }
        }
    }
    None
}

/// The CPU whose number is so much greater, counted on from 0 after the last number.
fn cpu_after(cpu: CpuId, steps: usize) -> CpuId
    requires some { 1 ≤ steps }
    requires few { steps < cpu_limit }
    ensures turn { turn_of cpu result ≡ cpu + steps }
    ensures apart { result ≢ cpu }
    ensures numbered { result < cpu_limit }
{
    let place = cpu.index() + steps;
    CpuId::numbered(if place < CpuId::COUNT {
        place
    } else {
        place - CpuId::COUNT
    })
}
