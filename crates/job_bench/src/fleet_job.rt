//! The operations of a fleet that keeps no history, and programs by threads.

ghost use Rattle.std.specs.Prelude.{◌≡◌, ◌<◌, ◌≤◌};

use crate::digest::Digest;
use crate::documents::{push_programs, push_tasks, push_version};
use crate::drawn_machine::{Shape, TaskKind, drawn_tasks, setup_without_programs};
use crate::drawn_programs::{Programs, drawn_programs};
use crate::fleet_seats::{DrawnOperations, FleetThread, HeldSeat, Mix, work};
use crate::job_fault::JobFault;
use crate::job_run::JobRun;
use crate::workbench::take_report;
use drawn_values::Draws;
use eevdf_bench::Kind;
use eevdf_fleet::Names;
use eevdf_fleet::endless::{Closed, Fleet, Kit, Seat};
use std::alloc::{AllocError, Global};
use std::marker::Brand;
use std::sync::Wait;
use std::thread;
use std::thread::Threads;

/// Does so many operations in each of these ways: two threads with two CPUs each, where no operation concerns the other thread;
/// wakes and pulls among four CPUs of one thread; wakes from 64 CPUs of one thread to one of them; and programs of the workbench
/// by threads.
pub fn fleet_job<R: Threads + Wait + Sync>(run: &mut JobRun<'_, R>) -> Result<(), JobFault> {
    let small = Shape {
        cpus: 4,
        tasks: 256,
        kind: TaskKind::HeavyFirst,
    };
    let wide = Shape {
        cpus: 64,
        tasks: 512,
        kind: TaskKind::HeavyFirst,
    };
    let size = run.size;
    fleet_run(run, &small, Mix::Own, 2, size)?;
    fleet_run(run, &small, Mix::Wakes, 1, size)?;
    fleet_run(run, &small, Mix::Pulls, 1, size)?;
    fleet_run(run, &wide, Mix::OneHome, 1, size / 2)?;
    program_run(run, &small, size / 64)
}

/// Opens a fleet, has threads do so many operations each, closes it, and takes in what came of it.
pub fn fleet_run<R: Threads + Wait + Sync>(
    run: &mut JobRun<'_, R>,
    shape: &Shape,
    mix: Mix,
    threads: u64,
    operations: u64,
) -> Result<(), JobFault>
    requires some { 0 < threads }
{
    let (rt, alloc) = (run.rt, run.alloc);
    let tasks = drawn_tasks(alloc, shape, &mut run.draws)?;
    let setup = setup_without_programs(alloc, shape, &tasks)?;
    let kit = Kit::make(alloc, &setup, 64)?;
    let seed = run.draws.below(0x1_0000_0000);
    let done = worked_out::<Brand, R>(rt, alloc, shape, mix, threads, operations, seed, kit)?;
    run.digest.add(done.sum());
    Ok(())
}

/// The digest of the answers of all threads, in the order of the threads, and of what the fleet is closed to.
fn worked_out<N: Names + Send + Sync, R: Threads + Wait + Sync>(
    rt: &R,
    alloc: Global,
    shape: &Shape,
    mix: Mix,
    threads: u64,
    operations: u64,
    seed: u64,
    kit: Kit,
) -> Result<Digest, JobFault>
    requires kit { kit ≡ N.kit }
    requires some { 0 < threads }
{
    let (fleet, seats) = Fleet::<N>::open(alloc, kit)?;
    let threads = seats_by_thread(alloc, shape, mix, threads, seed, seats)?;
    let threads = worked(rt, &fleet, operations, threads)?;
    let mut digest = Digest::new();
    let seats = seats_of(alloc, threads, &mut digest)?;
    close(fleet, seats, &mut digest)?;
    Ok(digest)
}

/// Has the threads do the operations.
fn worked<N: Names + Send + Sync, R: Threads + Wait + Sync>(
    rt: &R,
    fleet: &Fleet<N>,
    operations: u64,
    threads: Vec<FleetThread<Seat<N>>>,
) -> Result<Vec<FleetThread<Seat<N>>>, JobFault> {
    let threads = thread::map_vec(
        rt,
        threads,
        &move |own| { work::<N, R>(rt, fleet, operations, own) },
    )?;
    Ok(threads)
}

/// Takes the seats back from the threads, and takes in what their operations were answered.
fn seats_of<S: Drop>(
    alloc: Global,
    threads: Vec<FleetThread<S>>,
    digest: &mut Digest,
) -> Result<Vec<S>, JobFault> {
    let mut seats = Vec::new(alloc);
    for own in threads {
        if let Some(fault) = own.fault {
            return Err(fault);
        }
        digest.add(own.digest.sum());
        take_seats(&mut seats, own.seats)?;
    }
    Ok(seats)
}

fn take_seats<S: Drop>(seats: &mut Vec<S>, own: Vec<HeldSeat<S>>) -> Result<(), AllocError> {
    for held in own {
        seats.push(held.seat)?;
    }
    Ok(())
}

/// Closes a fleet, and takes in the queues and the requests that it leaves.
fn close<N: Names>(
    fleet: Fleet<N>,
    seats: Vec<Seat<N>>,
    digest: &mut Digest,
) -> Result<(), JobFault> {
    if !fleet.has_all_seats(&seats) {
        return Err(JobFault::Seats);
    }
    let Closed { queues, left } = fleet.close(seats);
    digest.add_queues(&queues);
    for requests in &left {
        digest.add_requests(requests);
    }
    Ok(())
}

/// Hands the seats to the threads, as many to each.
fn seats_by_thread<S: Drop>(
    alloc: Global,
    shape: &Shape,
    mix: Mix,
    threads: u64,
    seed: u64,
    seats: Vec<S>,
) -> Result<Vec<FleetThread<S>>, AllocError>
    requires some { 0 < threads }
{
    let each = shape.cpus / threads;
    let mut others = seats.into_iter();
    let mut owners = Vec::new(alloc);
    for number in 0..threads {
        let mut seats = Vec::new(alloc);
        for _seat in 0..each {
            if let Some(seat) = others.next() {
                seats.push(HeldSeat::new(seat))?;
            }
        }
        owners.push(FleetThread {
            seats,
            drawn: DrawnOperations {
                shape: *shape,
                mix,
                draws: Draws::new(seed, number),
            },
            digest: Digest::new(),
            fault: None,
        })?;
    }
    Ok(owners)
}

/// Programs of which none concerns another CPU, run by threads.
fn program_run<R: Threads + Wait + Sync>(
    run: &mut JobRun<'_, R>,
    shape: &Shape,
    average: u64,
) -> Result<(), JobFault> {
    let tasks = drawn_tasks(run.alloc, shape, &mut run.draws)?;
    let programs = drawn_programs(run.alloc, shape, Programs::Apart, average, &mut run.draws)?;
    let mut text = String::new(run.alloc);
    push_version(&mut text, false)?;
    push_programs(&mut text, &programs)?;
    push_tasks(&mut text, &tasks)?;
    take_report(run, text.as_bytes(), Kind::Run)
}
