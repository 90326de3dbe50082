//! Deeds on the scheduler of one thread.

use eevdf_ops::{CpuId, Deed, Op, Setup, Solo};

/// Does an operation of a CPU twice, where the machine allows its deed. A post is a wake at once, and a drain nothing.
pub fn operate(machine: &mut Solo, setup: &Setup, cpu: CpuId, operation: Op) {
    if let Some(deed) = deed_of(setup, cpu, operation) {
        if machine.allows(&deed) {
            let _ = machine.apply(deed);
        }
        let _ = machine.try_apply(deed);
    }
}

fn deed_of(setup: &Setup, cpu: CpuId, operation: Op) -> Option<Deed> {
    match operation {
        Op::Post(task) => {
            if !setup.has_task(task) {
                return None;
            }
            let home = setup.spec(task).home;
            Some(Deed::Wake {
                cpu: home,
                task,
                sender: cpu,
            })
        }
        _ => operation.on(cpu),
    }
}
