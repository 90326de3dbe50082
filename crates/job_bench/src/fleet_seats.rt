//! What a thread does with the seats of a fleet that keeps no history.

use crate::digest::Digest;
use crate::drawn_deeds::{drawn_task, other_cpu};
use crate::drawn_machine::Shape;
use crate::drawn_programs::task_at;
use crate::job_fault::JobFault;
use drawn_values::Draws;
use eevdf_fleet::endless::{Fleet, Seat};
use eevdf_fleet::{Names, Operated, Refused};
use eevdf_ops::{Answer, CpuId, Op};
use eevdf_queue::TaskId;
use std::sync::Wait;

/// Of what kind the operations of a fleet are.
#[derive(Clone, Copy, PartialEq, Eq, Debug)]
pub enum Mix {
    /// None concerns another CPU.
    Own,
    /// Wakes are posted to all CPUs, and drained.
    Wakes,
    /// Tasks are pulled from other CPUs.
    Pulls,
    /// Wakes are posted to one CPU.
    OneHome,
}

/// A seat with the task that runs on its CPU. The unused bytes keep it off the cache lines of the seats of another thread.
#[derive(Drop)]
#[repr(C)]
pub struct HeldSeat<S: Drop> {
    pub seat: S,
    pub running: Option<TaskId>,
    unused: [u64; 8],
}

impl<S: Drop> HeldSeat<S> {
    pub fn new(seat: S) -> HeldSeat<S> {
        HeldSeat {
            seat,
            running: None,
            unused: [0; 8],
        }
    }
}

/// What the operations of a thread are drawn from.
#[derive(Drop)]
pub struct DrawnOperations {
    pub shape: Shape,
    pub mix: Mix,
    pub draws: Draws,
}

/// The seats of a thread, what their operations are drawn from, and the digest of the answers.
#[derive(Drop)]
pub struct FleetThread<S: Drop> {
    pub seats: Vec<HeldSeat<S>>,
    pub drawn: DrawnOperations,
    pub digest: Digest,
    /// Why an operation couldn't be done, if one couldn't.
    pub fault: Option<JobFault>,
}

/// Does so many operations of each seat by turns.
pub fn work<N: Names, R: Wait>(
    rt: &R,
    fleet: &Fleet<N>,
    operations: u64,
    mut own: FleetThread<Seat<N>>,
) -> FleetThread<Seat<N>> {
    for number in 0..operations {
        if let Err(fault) = step(rt, fleet, &mut own, number) {
            own.fault = Some(fault);
        }
    }
    own
}

/// Does the operation of this number, of the seats in turn.
#[inline(always)]
fn step<N: Names, R: Wait>(
    rt: &R,
    fleet: &Fleet<N>,
    own: &mut FleetThread<Seat<N>>,
    number: u64,
) -> Result<(), JobFault> {
    let count = own.seats.len() as u64;
    if count == 0 {
        return Err(JobFault::Seats);
    }
    let held = &mut own.seats[(number % count) as usize];
    let operation = own.drawn.next(held.seat.cpu(), held.running);
    let answer = operate(rt, fleet, &mut held.seat, operation, &mut own.digest)?;
    if let Some(answer) = answer {
        held.running = running_after(held.running, answer);
    }
    Ok(())
}

/// Does an operation of the seat's CPU, and takes in what comes of it.
#[inline(always)]
fn operate<N: Names, R: Wait>(
    rt: &R,
    fleet: &Fleet<N>,
    seat: &mut Seat<N>,
    operation: Op,
    digest: &mut Digest,
) -> Result<Option<Answer>, JobFault> {
    match fleet.try_operate(rt, seat, operation) {
        Ok(Operated::Answer(answer)) => {
            digest.add_answer(&answer);
            return Ok(Some(answer));
        }
        Ok(Operated::Posted) => digest.add(1),
        Err(Refused::RingFull(full)) => digest.add(2 + full.task.get()),
        Ok(Operated::Drained(drained)) => {
            digest.add(drained.taken as u64);
            digest.add(drained.woken as u64);
        }
        Err(_) => return Err(JobFault::Machine),
    }
    Ok(None)
}

/// The task that runs on a CPU after an answer.
fn running_after(running: Option<TaskId>, answer: Answer) -> Option<TaskId> {
    match answer {
        Answer::Picked(task) => Some(task),
        Answer::Slept(_) => None,
        _ => running,
    }
}

impl DrawnOperations {
    /// The next operation, on a CPU with this running task.
    fn next(&mut self, cpu: CpuId, running: Option<TaskId>) -> Op {
        drawn_operation(&self.shape, self.mix, cpu, running, &mut self.draws)
    }
}

fn drawn_operation(
    shape: &Shape,
    mix: Mix,
    cpu: CpuId,
    running: Option<TaskId>,
    draws: &mut Draws,
) -> Op {
    let kind = draws.below(16);
    match mix {
        Mix::Own => own_operation(kind, shape, cpu, running, draws),
        Mix::Wakes => waking(kind, shape, running, draws),
        Mix::Pulls => pulling(kind, shape, cpu, running, draws),
        Mix::OneHome => posting(kind, shape, cpu, running, draws),
    }
}

fn own_operation(
    kind: u64,
    shape: &Shape,
    cpu: CpuId,
    running: Option<TaskId>,
    draws: &mut Draws,
) -> Op {
    match (kind, running) {
        (0, _) => Op::Yield,
        (1, Some(task)) => Op::Renice(task, draws.nice()),
        (2, Some(task)) => Op::Sleep(task),
        (3..6, _) => Op::Post(task_at(shape, cpu, draws)),
        (6..10, _) => Op::Drain,
        _ => turn(kind, draws),
    }
}

/// There are more drains than posts, so that the requests don't pile up.
fn waking(kind: u64, shape: &Shape, running: Option<TaskId>, draws: &mut Draws) -> Op {
    match (kind, running) {
        (0..4, _) => Op::Drain,
        (4..7, _) => Op::Post(drawn_task(shape, draws)),
        (7, Some(task)) => Op::Sleep(task),
        _ => turn(kind, draws),
    }
}

/// Without the new levels the loads would soon be level, and no pull would move a task.
fn pulling(kind: u64, shape: &Shape, cpu: CpuId, running: Option<TaskId>, draws: &mut Draws) -> Op {
    match (kind, running) {
        (0..3, _) if 1 < shape.cpus => Op::Pull(other_cpu(shape, cpu, draws)),
        (3, Some(task)) => Op::Renice(task, draws.nice()),
        _ => turn(kind, draws),
    }
}

/// All wake the tasks of one CPU, whose tasks alone fall asleep. It takes more requests of each sender than are posted.
fn posting(kind: u64, shape: &Shape, cpu: CpuId, running: Option<TaskId>, draws: &mut Draws) -> Op {
    if cpu.get() != 0 {
        return posting_or_turn(kind, shape, draws);
    }
    match (kind, running) {
        (0..5, Some(task)) => Op::Sleep(task),
        (5..10, _) => Op::Drain,
        _ => turn(kind, draws),
    }
}

/// Mostly a tick or a pick, and else a post to the first CPU.
fn posting_or_turn(kind: u64, shape: &Shape, draws: &mut Draws) -> Op {
    match kind {
        0..2 => Op::Post(task_at(shape, CpuId::new(0).unwrap(), draws)),
        _ => turn(kind, draws),
    }
}

/// A tick or a pick.
fn turn(kind: u64, draws: &mut Draws) -> Op {
    if kind % 2 == 0 {
        Op::Pick
    } else {
        Op::Tick(draws.tick())
    }
}
