//! The machine of the pool, its run, and what came of it.

use crate::machines::{empty_programs, task_at};
use crate::pool::Pool;
use crate::pool::lives::{Lives, REQUESTS};
use crate::pool::pool_cpu::{CPUS, NUMBERS, PoolCpu};
use crate::shared_work::Turns;
use eevdf_fleet::RunFault;
use eevdf_fleet::endless::{Closed, Kit, run_turns};
use eevdf_free_tasks::free_parts;
use eevdf_live_tasks::LiveTasks;
use eevdf_ops::{CpuId, Setup, SetupFault, TaskSpec};
use eevdf_queue::{Queue, TaskId};
use std::alloc::{AllocError, Global};
use std::sync::Wait;
use std::sync::atomic::AtomicU64;
use std::thread::Threads;

/// What is found of the tasks that came, and of the numbers.
#[derive(Clone, Copy)]
pub struct PoolCount {
    /// How many requests were to come.
    pub requests: u64,
    /// How many tasks came, and of these how many have gone or stand in one of the queues.
    pub came: u64,
    pub found: u64,
    /// How many numbers there are, and of these how many are free, with nobody under them, or in use.
    pub numbers: u64,
    pub kept: u64,
    /// How many steps were taken under numbers that no task had.
    pub steps_of_nobody: u64,
}

/// Runs the pool until all requests have come, and counts.
pub fn served<R: Threads + Wait + Sync>(
    rt: &R,
    alloc: Global,
    setup: &Setup,
) -> Result<PoolCount, RunFault> {
    let kit = Kit::make(alloc, setup, NUMBERS)?;
    let turns = Turns {
        work: open_pool(alloc, setup)?,
    };
    let closed = run_turns(rt, alloc, kit, &turns)?;
    let free = free_numbers(rt, alloc, &turns.work)?;
    Ok(count(&turns.work, &closed, &free))
}

fn open_pool(alloc: Global, setup: &Setup) -> Result<Pool, AllocError> {
    let mut cpus = Vec::new(alloc);
    let mut parts = free_parts(alloc, setup)?;
    let live = LiveTasks::open(alloc, setup, &mut parts)?;
    for free in parts {
        cpus.push(PoolCpu::new(alloc, free)?)?;
    }
    Ok(Pool {
        cpus,
        come: AtomicU64::new(0),
        live,
        lives: Lives::new(alloc, NUMBERS)?,
    })
}

/// The numbers that are free when all threads have ended, each taken from the part of its home.
fn free_numbers<R: Wait>(rt: &R, alloc: Global, pool: &Pool) -> Result<Vec<TaskId>, AllocError> {
    let mut free = Vec::with_capacity(alloc, NUMBERS)?;
    for cpu in pool.cpus.iter() {
        let mut own = cpu.own.lock(rt);
        for _number in 0..NUMBERS {
            match own.free.take() {
                Some(taken) => free.push(taken.retire())?,
                None => break,
            }
        }
    }
    Ok(free)
}

fn count(pool: &Pool, closed: &Closed, free: &[TaskId]) -> PoolCount {
    let mut counted = PoolCount {
        requests: REQUESTS,
        came: 0,
        found: 0,
        numbers: NUMBERS as u64,
        kept: 0,
        steps_of_nobody: pool.lives.steps_of_nobody(),
    };
    for number in 0..NUMBERS {
        if let Some(task) = TaskId::new(number as u64) {
            count_number(pool, closed, free, task, &mut counted);
        }
    }
    counted
}

/// Counts what came under a number. A task that hasn't gone stands in one queue, and the number isn't free; else it is free, once.
fn count_number(
    pool: &Pool,
    closed: &Closed,
    free: &[TaskId],
    task: TaskId,
    counted: &mut PoolCount,
) {
    let (came, gone) = pool.lives.came_and_gone(task);
    let times_free = free.iter().filter(|other| **other == task).count();
    let in_use = came.saturating_sub(gone);
    let stands_once = places(&closed.queues, task) == 1;
    counted.came = counted.came.saturating_add(came);
    counted.found = counted.found.saturating_add(gone);
    if in_use == 1 && stands_once {
        counted.found = counted.found.saturating_add(1);
    }
    if stands_once && in_use.saturating_add(times_free as u64) == 1 {
        counted.kept = counted.kept.saturating_add(1);
    }
}

/// In how many queues a task stands, runnable or asleep.
fn places(queues: &[Queue], task: TaskId) -> usize {
    queues.iter().filter(|queue| queue.contains(task)).count()
}

/// Four CPUs, and numbers whose homes are these in turn, all of them asleep.
pub fn four_pool_cpus(alloc: Global) -> Result<Setup, SetupFault> {
    let programs = empty_programs(alloc, CPUS)?;
    let tasks = sleepers(alloc)?;
    Setup::make(alloc, &tasks, &programs)
}

fn sleepers(alloc: Global) -> Result<Vec<TaskSpec>, AllocError> {
    let mut tasks = Vec::new(alloc);
    for number in 0..NUMBERS {
        let home = CpuId::new((number % CPUS) as u64).unwrap();
        tasks.push(task_at(home, true))?;
    }
    Ok(tasks)
}
