//! The machine of tasks that park, its run, and what came of it.

use crate::machines::{empty_programs, task_at};
use crate::parking::cpus::WaitingCpu;
use crate::parking::rounds::Rounds;
use crate::parking::tasks::Desks;
use crate::parking::{CPUS, OnCpu, Parking, TASK_NUMBERS};
use crate::shared_work::Turns;
use eevdf_fleet::RunFault;
use eevdf_fleet::endless::{Kit, run_turns};
use eevdf_free_tasks::{FreePart, free_parts};
use eevdf_live_tasks::LiveTasks;
use eevdf_ops::{CpuId, Setup, SetupFault, TaskSpec};
use eevdf_queue::TaskId;
use std::alloc::{AllocError, Global};
use std::sync::{Mutex, Wait};
use std::thread::Threads;

/// The room of a ring. Each CPU posts a few requests in a round, and once more what left a token.
const RING: usize = 64;

/// What is found when all units were put down.
#[derive(Clone, Copy)]
pub struct ParkingCount {
    /// At how many ends of a round a CPU was parked beside a crowded one, and at how many a request lay in a ring.
    pub beside: u64,
    pub left: u64,
    /// How many units were taken.
    pub taken: u64,
    /// How many numbers there are, and how many of these are free or a task has them, and not both.
    pub numbers: u64,
    pub kept: u64,
}

/// Runs four CPUs, each by a thread of its own, until so many units were put down and no task is left that works.
pub fn units_served<R: Threads + Wait + Sync>(
    rt: &R,
    alloc: Global,
    setup: &Setup,
    units: u64,
) -> Result<ParkingCount, RunFault> {
    let kit = Kit::make(alloc, setup, RING)?;
    let turns = Turns {
        work: open(alloc, setup, units)?,
    };
    let _ = run_turns(rt, alloc, kit, &turns)?;
    Ok(count(rt, alloc, &turns.work)?)
}

fn open(alloc: Global, setup: &Setup, units: u64) -> Result<Parking, AllocError> {
    let mut parts = free_parts(alloc, setup)?;
    let live = LiveTasks::open(alloc, setup, &mut parts)?;
    let mut cpus = Vec::new(alloc);
    let mut on_cpus = Vec::new(alloc);
    for free in parts {
        cpus.push(WaitingCpu::new())?;
        on_cpus.push(Mutex::new(on_cpu(alloc, free)?))?;
    }
    Ok(Parking {
        cpus,
        on_cpus,
        live,
        desks: Desks::new(alloc, TASK_NUMBERS)?,
        rounds: Rounds::new(units),
    })
}

fn on_cpu(alloc: Global, free: FreePart) -> Result<OnCpu, AllocError> {
    let seed = free.cpu().get();
    Ok(OnCpu {
        free,
        wakes: Vec::with_capacity(alloc, CPUS as usize)?,
        rounds: 0,
        units_left: 0,
        seed,
        works: false,
        has_idled: false,
    })
}

fn count<R: Wait>(rt: &R, alloc: Global, parking: &Parking) -> Result<ParkingCount, AllocError> {
    let free = free_numbers(rt, alloc, parking)?;
    let mut kept = 0u64;
    for number in 0..TASK_NUMBERS {
        if let Some(task) = TaskId::new(number)
            && times_kept(parking, &free, task) == 1
        {
            kept = kept.saturating_add(1);
        }
    }
    Ok(ParkingCount {
        beside: parking.rounds.ends_beside_a_crowded(),
        left: parking.rounds.ends_with_a_request(),
        taken: parking.desks.taken(),
        numbers: TASK_NUMBERS,
        kept,
    })
}

/// How often a number is free, and once more where a task has it.
fn times_kept(parking: &Parking, free: &[TaskId], task: TaskId) -> usize {
    let times_free = free.iter().filter(|other| **other == task).count();
    times_free.saturating_add(parking.live.has(task) as usize)
}

/// The numbers that are free when all threads have ended, each taken from the part of its home.
fn free_numbers<R: Wait>(
    rt: &R,
    alloc: Global,
    parking: &Parking,
) -> Result<Vec<TaskId>, AllocError> {
    let mut free = Vec::with_capacity(alloc, TASK_NUMBERS as usize)?;
    for on_cpu in parking.on_cpus.iter() {
        let mut own = on_cpu.lock(rt);
        for _number in 0..TASK_NUMBERS {
            match own.free.take() {
                Some(taken) => free.push(taken.retire())?,
                None => break,
            }
        }
    }
    Ok(free)
}

/// Four CPUs, each the home of three numbers, all of them asleep.
pub fn four_cpus(alloc: Global) -> Result<Setup, SetupFault> {
    let programs = empty_programs(alloc, CPUS as usize)?;
    let tasks = sleepers(alloc)?;
    Setup::make(alloc, &tasks, &programs)
}

fn sleepers(alloc: Global) -> Result<Vec<TaskSpec>, AllocError> {
    let mut tasks = Vec::new(alloc);
    for number in 0..TASK_NUMBERS {
        tasks.push(task_at(CpuId::new(number % CPUS).unwrap(), true))?;
    }
    Ok(tasks)
}
