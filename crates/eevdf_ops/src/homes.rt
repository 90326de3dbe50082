//! Where the tasks of a machine have their homes.

ghost use Rattle.std.specs.Prelude.{◌≡◌, true};
ghost use Rattle.eevdf_ops.specs.Homes.{homes_in};
ghost use Rattle.eevdf_ops.specs.Setup.{has_named, home_of, is_allowed, is_at_home, is_task};

use crate::cpu_id::CpuId;
use crate::deeds::Deed;
use crate::named::Named;
use crate::origin::Origin;
use crate::task_spec::TaskSpec;
use eevdf_queue::TaskId;

/// The homes of a machine's tasks by their numbers, in the list that whoever asks has of them.
#[derive(Clone, Copy)]
pub enum Homes<'a> {
    /// The homes alone.
    Alone(&'a [CpuId]),
    /// The homes of these tasks.
    Of(&'a [TaskSpec]),
}

impl Homes<'_> {
    /// Whether there is a task.
    #[inline(always)]
    pub fn has_task(&self, task: TaskId) -> bool
        ensures { result ≡ is_task (homes_in self.now) task }
    {
        match *self {
            Homes::Alone(homes) => task.index() < homes.len(),
            Homes::Of(tasks) => task.index() < tasks.len(),
        }
    }

    /// The home of a task.
    #[inline(always)]
    pub fn home(&self, task: TaskId) -> CpuId
        requires { is_task (homes_in self.now) task ≡ true }
        ensures { result ≡ home_of (homes_in self.now) task }
    {
        match *self {
            Homes::Alone(homes) => homes[task.index()],
            Homes::Of(tasks) => tasks[task.index()].home,
        }
    }

    /// Whether a task has its home at a CPU.
    pub fn is_at_home(&self, task: TaskId, cpu: CpuId) -> bool
        ensures { result ≡ is_at_home (homes_in self.now) task cpu }
    {
        self.has_task(task) && self.home(task).get() == cpu.get()
    }

    /// Whether a machine of so many CPUs has the task or the CPU that an operation of a CPU names.
    #[inline(always)]
    pub(crate) fn has_named(&self, cpus: usize, cpu: CpuId, named: Named) -> bool
        ensures { result ≡ has_named cpus (homes_in self.now) cpu named }
    {
        match named {
            Named::Nothing => true,
            Named::Task(task) => self.has_task(task),
            Named::TaskAtHome(task) => self.is_at_home(task, cpu),
            Named::Source(source) => source.index() < cpus && source.get() != cpu.get(),
        }
    }

    /// Whether a machine of so many CPUs has the CPU, the task, the sender and the source that a deed names, a wake or a begin is at
    /// the task's home, and a pull is from another CPU.
    pub fn allows(&self, cpus: usize, deed: &Deed) -> bool
        ensures { result ≡ is_allowed cpus (homes_in self.now) deed.now }
    {
        let (cpu, origin) = deed.parts();
        let has_origin = match origin {
            Origin::Operation(operation) => self.has_named(cpus, cpu, operation.named()),
            Origin::Request { task, sender } => {
                sender.index() < cpus && self.is_at_home(task, cpu)
            }
        };
        cpu.index() < cpus && has_origin
    }
}
