//! The test that a setup has to pass.

ghost use Rattle.std.specs.Prelude.{◌≡◌, ◌+ℤ◌, pos, true, length, map};
ghost use Rattle.eevdf_weight.specs.Limits as limits;
ghost use Rattle.eevdf_queue.specs.Moves.{request_of};
ghost use Rattle.eevdf_ops.specs.Faults as faults;
ghost use Rattle.eevdf_ops.specs.Homes.{homes_in};
ghost use Rattle.eevdf_ops.specs.Setup.{is_at_home, is_source};

use crate::cpu_id::CpuId;
use crate::deeds::Op;
use crate::homes::Homes;
use crate::named::Named;
use crate::setup::Setup;
use crate::setup_fault::SetupFault;
use crate::task_spec::TaskSpec;
use eevdf_queue::TaskId;
use eevdf_weight::{charge, is_in_range, weight};

/// The first fault: in the number of CPUs, in that of tasks, in each task, in each program.
pub(crate) fn setup_fault(tasks: &[TaskSpec], programs: &[Vec<Op>]) -> Option<SetupFault>
    ensures { result ≡ faults.setup_fault tasks.now (map (λ p. p.items) programs.now) }
{
    unless(is_count(programs.len(), CpuId::COUNT), SetupFault::BadCpus)
        .or(unless(is_count(tasks.len(), TaskId::COUNT), SetupFault::BadTasks))
        .or(tasks_fault(programs.len(), tasks))
        .or(programs_fault(Homes::Of(tasks), programs.len(), programs))
}

fn tasks_fault(cpus: usize, tasks: &[TaskSpec]) -> Option<SetupFault>
    ensures { result ≡ faults.tasks_fault cpus 0 tasks.now }
{
    for (place, task) in tasks.iter().enumerate() {
        let fault = task_fault(cpus, place, *task);
        if fault.is_some() {
            return fault;
        }
    }
    None
}

fn task_fault(cpus: usize, place: usize, task: TaskSpec) -> Option<SetupFault>
    ensures { result ≡ faults.task_fault cpus place task }
{
    let home = task.home.index();
    unless(home < cpus, SetupFault::BadHome { task: place }).or(unless(
        starts_in_range(task),
        SetupFault::BadStart { task: place },
    ))
}

fn starts_in_range(task: TaskSpec) -> bool
    ensures { result ≡ faults.starts_in_range task }
{
    is_in_range(task.start) && is_in_range(first_deadline(task))
}

fn first_deadline(task: TaskSpec) -> i64
    requires { limits.is_in_range task.start ≡ true }
    ensures { result ≡ task.start +ℤ pos (request_of task.nice task.slice) }
{
    task.start + charge(task.slice.get(), weight(task.nice))
}

fn programs_fault(homes: Homes<'_>, cpus: usize, programs: &[Vec<Op>]) -> Option<SetupFault>
    ensures { result ≡ faults.programs_fault (homes_in homes.entry) cpus 0 (map (λ p. p.items) programs.now) }
{
    for (cpu, program) in programs.iter().enumerate() {
        let fault = program_fault(homes, cpus, cpu, program);
        if fault.is_some() {
            return fault;
        }
    }
    None
}

fn program_fault(homes: Homes<'_>, cpus: usize, cpu: usize, program: &[Op]) -> Option<SetupFault>
    ensures { result ≡ faults.program_fault (homes_in homes.entry) cpus cpu program.now }
{
    unless(
        program.len() <= Setup::MOST_OPERATIONS,
        SetupFault::TooLong { cpu },
    )
    .or(operations_fault(homes, cpus, cpu, program))
}

fn operations_fault(homes: Homes<'_>, cpus: usize, cpu: usize, program: &[Op]) -> Option<SetupFault>
    ensures { result ≡ faults.operations_fault (homes_in homes.entry) cpus cpu 0 program.now }
{
    for (at, operation) in program.iter().enumerate() {
        let fault = operation_fault(homes, cpus, cpu, at, *operation);
        if fault.is_some() {
            return fault;
        }
    }
    None
}

fn operation_fault(
    homes: Homes<'_>,
    cpus: usize,
    cpu: usize,
    at: usize,
    operation: Op,
) -> Option<SetupFault>
    ensures { result ≡ faults.operation_fault (homes_in homes.entry) cpus cpu at operation }
{
    let unknown_task = SetupFault::UnknownTask { cpu, at };
    match operation.named() {
        Named::Nothing => None,
        Named::Task(task) => unless(homes.has_task(task), unknown_task),
        Named::TaskAtHome(task) => unless(homes.has_task(task), unknown_task).or(unless(
            is_at_home(homes, task, cpu),
            SetupFault::BadBegin { cpu, at },
        )),
        Named::Source(source) => unless(
            is_source(cpus, cpu, source),
            SetupFault::BadPull { cpu, at },
        ),
    }
}

/// Whether a task has its home at this CPU.
fn is_at_home(homes: Homes<'_>, task: TaskId, cpu: usize) -> bool
    ensures { result ≡ is_at_home (homes_in homes.entry) task cpu }
{
    homes.has_task(task) && homes.home(task).index() == cpu
}

/// Whether a CPU may pull from this one.
fn is_source(cpus: usize, cpu: usize, source: CpuId) -> bool
    ensures { result ≡ is_source cpus cpu source }
{
    let source = source.index();
    source < cpus && source != cpu
}

fn is_count(n: usize, most: usize) -> bool
    ensures { result ≡ faults.is_count n most }
{
    1 <= n && n <= most
}

fn unless(passes: bool, fault: SetupFault) -> Option<SetupFault>
    ensures { result ≡ faults.unless passes fault }
{
    if passes { None } else { Some(fault) }
}
