ghost use Rattle.std.specs.Prelude.{◌<◌, ◌+◌, IfOk, OnOk};
ghost use Rattle.eevdf_ops.specs.Setup.{cpus_of};
ghost use Rattle.eevdf_free_tasks.specs.Parts.{AreFresh};
ghost use Rattle.eevdf_free_tasks.specs.Openings.{AreJoined, HaveRings};

use crate::free_part::FreePart;
use eevdf_ops::{CpuId, Setup};
use rtrb::RingBuffer;
use std::alloc::{AllocError, Global};

/// The parts of a setup's CPUs, in order, with a ring from each to each. At first the numbers of tasks that the setup has asleep are free, and
/// the others are taken. It takes all the memory that the parts ever need; the answer is `AllocError` where memory is refused.
pub fn free_parts(alloc: Global, setup: &Setup) -> Result<Vec<FreePart>, AllocError>
    ensures fresh { IfOk result (λ parts. AreFresh setup.now (cpus_of setup.now) parts.items) }
    ensures rings { IfOk result (λ parts. HaveRings (cpus_of setup.now) parts.items) }
{
    let mut parts = parts_alone(alloc, setup)?;
    let cpus = setup.cpus();
    for home in 0..cpus {
        let slots = numbers_at(setup, CpuId::numbered(home));
        for sender in 0..cpus {
            connect(alloc, setup, &mut parts, sender, home, slots)?;
        }
    }
    Ok(parts)
}

/// Gives a sender and a home the ends of a ring with so many places.
fn connect(
    alloc: Global,
    setup: &Setup,
    parts: &mut Vec<FreePart>,
    sender: usize,
    home: usize,
    slots: usize,
) -> Result<(), AllocError>
    requires fresh { AreFresh setup.now (cpus_of setup.now) parts.old.items }
    requires joined { AreJoined (cpus_of setup.now) home sender parts.old.items }
    requires sender { sender < cpus_of setup.now }
    requires home { home < cpus_of setup.now }
    ensures fresh { OnOk result (AreFresh setup.now (cpus_of setup.now) parts.new.items) }
    ensures joined { OnOk result (AreJoined (cpus_of setup.now) home (sender + 1) parts.new.items) }
{
    let (producer, consumer) = RingBuffer::new(alloc, slots)?;
    parts[sender].add_producer(producer)?;
    parts[home].add_consumer(consumer)?;
    Ok(())
}

/// The parts of the CPUs without rings.
fn parts_alone(alloc: Global, setup: &Setup) -> Result<Vec<FreePart>, AllocError>
    ensures fresh { IfOk result (λ parts. AreFresh setup.now (cpus_of setup.now) parts.items) }
    ensures joined { IfOk result (λ parts. AreJoined (cpus_of setup.now) 0 0 parts.items) }
{
    let cpus = setup.cpus();
    let mut parts = Vec::with_capacity(alloc, cpus)?;
    for cpu in 0..cpus {
        parts.push(FreePart::of_cpu(alloc, setup, CpuId::numbered(cpu))?)?;
    }
    Ok(parts)
}

/// How many numbers have their home at a CPU.
fn numbers_at(setup: &Setup, home: CpuId) -> usize {
    let mut count = 0usize;
    for (_task, spec) in setup.each_task() {
        if spec.home == home {
            count = count.saturating_add(1);
        }
    }
    count
}
