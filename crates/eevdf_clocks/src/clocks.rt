ghost use Rattle.std.specs.Prelude.{◌≡◌, slice_index, IfOk};
ghost use Rattle.eevdf_clocks.specs.Times as spec;

use crate::moment::Moment;
use crate::named_tasks::{asleep_task, found_task};
use eevdf_ops::{Answer, CpuId, Deed, Line};
use eevdf_queue::TaskId;
use std::alloc::{AllocError, Global};
use std::marker::Model;

/// The clock of each CPU, and for each task the time at which it fell asleep or ended last, in nanoseconds.
#[derive(Drop)]
pub struct Clocks {
    cpus: Vec<u64>,
    slept: Vec<u64>,
}

impl Model for Clocks {
    ghost use Rattle.std.specs.Prelude.{◌≡◌, length};
    ghost use Rattle.eevdf_queue.specs.Numbers.{number_limit};
    ghost use Rattle.eevdf_ops.specs.Numbers.{cpu_limit};
    ghost use Rattle.eevdf_clocks.specs.Times as spec;

    ghost Value = { spec.Clocks };

    ghost view = { λ c. record { cpus = c.cpus.items; slept = c.slept.items } };

    ghost invariant = { λ c. (length c.cpus.items ≡ cpu_limit) × (length c.slept.items ≡ number_limit) };
}

impl Clocks {
    /// All clocks at 0, before anything was done.
    pub fn open(alloc: Global) -> Result<Clocks, AllocError>
        ensures { IfOk result (λ clocks. clocks ≡ spec.opened) }
    {
        let cpus = vec![in alloc; 0; CpuId::COUNT]?;
        let slept = vec![in alloc; 0; TaskId::COUNT]?;
        Ok(Clocks { cpus, slept })
    }

    /// The clock of a CPU, and 0 of a number that no CPU has.
    pub fn time(&self, cpu: usize) -> u64
        ensures { result ≡ slice_index self.now.cpus cpu }
    {
        self.cpus.get(cpu).copied().unwrap_or(0)
    }

    /// The next line of a history with its time, after which the clocks go on.
    pub fn pass(&mut self, line: Line) -> Moment
        ensures moment { result ≡ spec.moment_of self.old line }
        ensures clocks { self.new ≡ spec.after self.old line }
    {
        let cpu = line.deed.cpu().index();
        let other = self.other_clock(line.deed);
        let begin = self.cpus[cpu]
            .max(other)
            .max(self.asleep_since(found_task(&line)));
        let end = begin.saturating_add(length_of(&line));
        self.cpus[cpu] = end;
        self.note_asleep(asleep_task(&line), begin);
        Moment {
            line,
            begin,
            end,
            other,
        }
    }

    /// The clock of the other CPU that a deed names, and else of its own.
    fn other_clock(&self, deed: Deed) -> u64
        ensures { result ≡ spec.other_clock self.now deed }
    {
        match deed {
            Deed::Pull { source, .. } => self.cpus[source.index()],
            Deed::Wake { sender, .. } => self.cpus[sender.index()],
            _ => self.cpus[deed.cpu().index()],
        }
    }

    /// When a task fell asleep that a line found asleep, and 0 where it found none.
    fn asleep_since(&self, found: Option<TaskId>) -> u64
        ensures { result ≡ spec.asleep_since self.now found }
    {
        match found {
            Some(task) => self.slept[task.index()],
            None => 0,
        }
    }

    /// Keeps the time at which a task fell asleep or ended.
    fn note_asleep(&mut self, asleep: Option<TaskId>, time: u64)
        ensures cpus { self.new.cpus ≡ self.old.cpus }
        ensures slept { self.new.slept ≡ spec.slept_after self.old.slept asleep time }
    {
        if let Some(task) = asleep {
            self.slept[task.index()] = time;
        }
    }
}

/// The nanoseconds that a line takes: those of a tick that wasn't refused.
fn length_of(line: &Line) -> u64
    ensures { result ≡ spec.length_of line.now }
{
    match line.answer {
        Answer::Range => 0,
        _ => ticked(line.deed),
    }
}

/// The nanoseconds of a tick, and 0 of any other deed.
fn ticked(deed: Deed) -> u64
    ensures { result ≡ spec.ticked deed }
{
    match deed {
        Deed::Tick { ns, .. } => ns.get(),
        _ => 0,
    }
}
