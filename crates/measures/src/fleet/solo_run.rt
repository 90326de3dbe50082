//! The operations of all threads in one thread, without a fleet: one of each thread in turn.

ghost use Rattle.std.specs.Prelude.{◌<◌};

use crate::fleet::asked_run::AskedRun;
use crate::fleet::drawn_operations::{DrawnOperations, running_after};
use crate::fleet::drawn_run::DrawnRun;
use crate::fleet::thread_seats::turn_after;
use eevdf_ops::{Answer, CpuId, Deed, Op, Setup, Solo};
use eevdf_queue::TaskId;
use std::alloc::{AllocError, Global};

/// The operation is none of the machine.
#[derive(Drop)]
struct Refused;

/// A CPU, and the task that runs on it.
#[derive(Drop)]
struct Place {
    cpu: CpuId,
    running: Option<TaskId>,
}

/// The operations of a thread, its CPUs, and which of them has the next operation.
#[derive(Drop)]
struct Part {
    drawn: DrawnOperations,
    places: Vec<Place>,
    turn: usize,
}

/// Does the operations of a run, and gives how many were done.
pub fn solo_count<R>(run: &DrawnRun<'_, R>) -> Result<u64, AllocError> {
    let (alloc, asked, setup) = (run.alloc, &run.asked, &run.setup);
    let mut solo = Solo::open(alloc, setup)?;
    let mut parts = parts_of(alloc, asked)?;
    let mut done = 0u64;
    for _number in 0..asked.operations {
        for part in parts.iter_mut() {
            if step(setup, &mut solo, part).is_ok() {
                done = done.wrapping_add(1);
            }
        }
    }
    Ok(done)
}

fn parts_of(alloc: Global, run: &AskedRun) -> Result<Vec<Part>, AllocError> {
    let mut parts = Vec::with_capacity(alloc, run.threads)?;
    for thread in 0..run.threads {
        parts.push(Part {
            drawn: DrawnOperations::new(run, thread),
            places: places_of(alloc, run, thread)?,
            turn: 0,
        })?;
    }
    Ok(parts)
}

/// The CPUs of a thread.
fn places_of(alloc: Global, run: &AskedRun, thread: usize) -> Result<Vec<Place>, AllocError>
    requires { thread < run.now.threads }
{
    let mut places = Vec::with_capacity(alloc, run.cpus_a_thread)?;
    for at in 0..run.cpus_a_thread {
        places.push(Place {
            cpu: run.cpu(thread, at),
            running: None,
        })?;
    }
    Ok(places)
}

/// Does the next operation of a thread, on its CPUs in turn.
fn step(setup: &Setup, solo: &mut Solo, part: &mut Part) -> Result<(), Refused> {
    let turn = part.turn;
    part.turn = turn_after(turn, part.places.len());
    let place = part.places.get_mut(turn).ok_or(Refused)?;
    let operation = part.drawn.next(place.cpu, place.running);
    if let Some(answer) = operate(setup, solo, place.cpu, operation)? {
        place.running = running_after(place.running, answer);
    }
    Ok(())
}

/// Does an operation of a CPU. A post is a wake at once, and a drain nothing.
fn operate(
    setup: &Setup,
    solo: &mut Solo,
    cpu: CpuId,
    operation: Op,
) -> Result<Option<Answer>, Refused> {
    let deed = match operation {
        Op::Drain => return Ok(None),
        Op::Post(task) => wake_of(setup, cpu, task),
        _ => operation.on(cpu),
    };
    let answer = deed.and_then(|deed| solo.try_apply(deed));
    Ok(Some(answer.ok_or(Refused)?))
}

/// The wake that a sender asks for, if the setup has the task.
fn wake_of(setup: &Setup, sender: CpuId, task: TaskId) -> Option<Deed> {
    if !setup.has_task(task) {
        return None;
    }
    let cpu = setup.spec(task).home;
    Some(Deed::Wake { cpu, task, sender })
}
