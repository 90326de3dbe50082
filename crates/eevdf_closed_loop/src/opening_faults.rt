//! What is wrong with a plan.

ghost use Rattle.std.specs.Prelude.{◌≡◌, ◌≤◌, ◌+◌, true, length, IfNone};
ghost use Rattle.eevdf_ops.specs.Numbers.{most_cpus, most_tasks};
ghost use Rattle.eevdf_closed_loop.specs.Faults as faults;

use crate::opening::OpenFault;
use crate::phase::Phase;
use crate::plan::Group;
use eevdf_ops::CpuId;
use eevdf_queue::TaskId;

/// Whether a machine may have so many CPUs.
pub(crate) fn is_number_of_cpus(cpus: usize) -> bool
    ensures { result ≡ faults.is_number_of_cpus cpus }
{
    1 <= cpus && cpus <= CpuId::COUNT
}

/// The first fault of the group at a place, before which there are so many tasks.
pub(crate) fn group_fault(
    group: &Group,
    place: usize,
    before: usize,
    cpus: usize,
    groups: usize,
) -> Option<OpenFault>
    requires { before ≤ most_tasks }
    ensures fault { result ≡ faults.group_fault cpus groups place before group.now }
    ensures room { IfNone result (before + group.now.count ≤ most_tasks) }
    ensures home { IfNone result (faults.is_home cpus group.now.home ≡ true) }
{
    if group.phases.is_empty() {
        return Some(OpenFault::NoPhases(place));
    }
    if !can_all_be_gone_through(&group.phases, groups) {
        return Some(OpenFault::BadPhase(place));
    }
    if group.count > TaskId::COUNT - before {
        return Some(OpenFault::BadTasks);
    }
    if !is_home(group.home, cpus) {
        return Some(OpenFault::BadHome(place));
    }
    None
}

/// Whether phases can be gone through where there are so many groups.
fn can_all_be_gone_through(phases: &[Phase], groups: usize) -> bool
    ensures { result ≡ faults.can_all_be_gone_through groups 0 phases.now }
{
    for (at, phase) in phases.iter().enumerate() {
        if !can_be_gone_through(*phase, at, groups) {
            return false;
        }
    }
    true
}

/// Whether a phase that stands at a place can be gone through where there are so many groups.
fn can_be_gone_through(phase: Phase, at: usize, groups: usize) -> bool
    ensures { result ≡ faults.can_be_gone_through groups at phase }
{
    match phase {
        Phase::Resume(resumed) => resumed < groups,
        Phase::Again {
            first,
            depth,
            rounds: _,
        } => first <= at && depth < Phase::DEPTHS,
        _ => true,
    }
}

/// Whether a home that is given is a CPU.
fn is_home(home: Option<usize>, cpus: usize) -> bool
    ensures { result ≡ faults.is_home cpus home }
{
    match home {
        Some(home) => home < cpus,
        None => true,
    }
}
