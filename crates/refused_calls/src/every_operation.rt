use eevdf_ops::{CpuId, Op};
use eevdf_queue::TaskId;
use eevdf_weight::{Nice, Ns, Slice};

/// An operation of each kind on task 0. The pull is from CPU 1 or from CPU 0, and a post comes once where its task dozes, twice where it
/// sleeps, and once where it has begun. It isn't `None`.
pub fn every_operation(cpu: CpuId) -> Option<[Op; 20]> {
    let task = TaskId::new(0)?;
    let source = CpuId::new(if cpu.get() == 0 { 1 } else { 0 })?;
    Some([
        Op::Pull(source),
        Op::Pick,
        Op::Doze(task),
        Op::Post(task),
        Op::Drain,
        Op::Pick,
        Op::Tick(Ns::new(3_000_000)?),
        Op::Renice(task, Nice::new(5)?),
        Op::Yield,
        Op::Sleep(task),
        Op::Post(task),
        Op::Post(task),
        Op::Drain,
        Op::Pick,
        Op::Rebase,
        Op::Set(task, Nice::new(-5)?, Slice::new(1_000_000)?),
        Op::End(task),
        Op::Begin(task, Nice::new(3)?, Slice::new(2_000_000)?),
        Op::Post(task),
        Op::Drain,
    ])
}
