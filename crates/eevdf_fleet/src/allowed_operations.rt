//! Which operations the setup allows.

ghost use Rattle.std.specs.Prelude.{◌≡◌};
ghost use Rattle.eevdf_fleet.specs.Fleets.{setup_of};
ghost use Rattle.eevdf_fleet.specs.Tried as tried;

use crate::names::Names;
use crate::operated::Refused;
use crate::run_queues::RunQueues;
use eevdf_ops::{CpuId, Named, Op};
use eevdf_queue::TaskId;

impl<N: Names> RunQueues<N> {
    /// Why the setup doesn't allow an operation of a CPU. `None` where it does.
    #[inline(always)]
    pub(crate) fn not_allowed(&self, cpu: CpuId, op: &Op) -> Option<Refused>
        ensures { result ≡ tried.not_allowed (setup_of N.kit) cpu op.now }
    {
        match op.named() {
            Named::Nothing => None,
            Named::Task(task) => self.no_task(task),
            Named::TaskAtHome(task) => self.no_task(task).or(unless(
                self.is_at_home(task, cpu),
                Refused::OtherHome(task),
            )),
            Named::Source(source) => unless(self.has_cpu(source), Refused::NoCpu(source)).or(unless(
                source != cpu,
                Refused::OwnCpu,
            )),
        }
    }

    #[inline(always)]
    fn no_task(&self, task: TaskId) -> Option<Refused>
        ensures { result ≡ tried.no_task (setup_of N.kit) task }
    {
        unless(self.has_task(task), Refused::NoTask(task))
    }
}

/// The reason, unless the test passes.
#[inline(always)]
fn unless(passes: bool, reason: Refused) -> Option<Refused>
    ensures { result ≡ tried.unless passes reason }
{
    if passes { None } else { Some(reason) }
}
