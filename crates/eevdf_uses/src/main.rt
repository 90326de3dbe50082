//! Small programs that embed the library, which docs/embedding.md explains. Each is run, and what comes of it is printed.
#![tactic(auto)]

mod barrier;
mod checked_input;
mod finding_work;
mod hundred_years;
mod idle_pulls;
mod machines;
mod one_history;
mod one_queue;
mod own_order;
mod parking;
mod pool;
mod shared_work;
mod tickless;
mod two_queues;
mod two_threads;

use crate::barrier::{cpus_with_a_task, met_with_history, met_without_history};
use crate::checked_input::{Order, answers, two_cpus};
use crate::hundred_years::first_day_out_of_range;
use crate::idle_pulls::{three_at_one, until_end};
use crate::one_history::tell_picks;
use crate::one_queue::{add, one_queue};
use crate::own_order::{last_first, pull_and_picks};
use crate::parking::{four_cpus, units_served};
use crate::pool::{four_pool_cpus, served};
use crate::tickless::tickless;
use crate::two_queues::pull;
use crate::two_threads::sleep_and_wake;
use eevdf_fleet::{Closed, RunFault, endless};
use eevdf_ops::{Answer, CpuId, Deed, Line};
use eevdf_queue::{Queue, TaskId};
use std::alloc::{AllocError, Global};
use std::rt::Env;
use std::sync::{Mutex, Wait};
use std::thread::Threads;
use std::{env, io};

/// How many units of work are put down for the tasks that park.
const UNITS: u64 = 20_000;

/// How many picks of all CPUs are told to another CPU.
const PICKS_TOLD: u64 = 20_000;

fn main(rt: HostRuntime) -> io::Result<()> {
    match asked_units(&rt, rt.alloc()) {
        Some(units) => show_parking(&rt, units),
        None => show_all(&rt),
    }
}

/// The number of units that the program's word says, if it has one: then it shows the tasks that park alone, with so many units.
fn asked_units(rt: &(impl Env + AllocGlobal), alloc: Global) -> Option<u64> {
    let words: Result<Vec<String>, _> = env::args(rt).ok()?.collect(alloc);
    let words = words.ok()?;
    words.get(1)?.parse::<u64>().ok()
}

fn show_all(rt: &(impl Print + AllocGlobal + Threads + Wait + Sync)) -> io::Result<()> {
    show_one_queue(rt)?;
    show_tickless(rt)?;
    show_hundred_years(rt)?;
    show_two_queues(rt)?;
    show_checked_input(rt)?;
    show_own_order(rt)?;
    show_two_threads(rt)?;
    show_barrier(rt)?;
    show_idle_pulls(rt)?;
    show_barrier_without_history(rt)?;
    show_one_history(rt)?;
    show_parking(rt, UNITS)?;
    show_pool(rt)
}

fn show_one_queue(rt: &(impl Print + AllocGlobal)) -> io::Result<()> {
    println!(rt; "one queue")?;
    let ran = one_queue(rt.alloc())?;
    print_turns(rt, &ran)
}

fn print_turns(rt: &impl Print, ran: &[TaskId]) -> io::Result<()> {
    for task in ran {
        println!(rt; "{task} ran")?;
    }
    Ok(())
}

fn show_tickless(rt: &(impl Print + AllocGlobal)) -> io::Result<()> {
    println!(rt; "without periodic ticks")?;
    let ran = tickless(rt.alloc(), &[2_000_000, 2_000_000, 3_000_000])?;
    for stretch in &ran {
        println!(rt; "{} ran for {} ns", stretch.task, stretch.ns)?;
    }
    Ok(())
}

fn show_hundred_years(rt: &(impl Print + AllocGlobal)) -> io::Result<()> {
    println!(rt; "a hundred years")?;
    for with_rebase in [false, true] {
        let words = if with_rebase { "with" } else { "without" };
        match first_day_out_of_range(rt.alloc(), 36_525, with_rebase)? {
            Some(day) => println!(rt; "{words} a rebase each day: out of range on day {day}")?,
            None => println!(rt; "{words} a rebase each day: in range")?,
        }
    }
    Ok(())
}

fn show_two_queues(rt: &(impl Print + AllocGlobal + Wait)) -> io::Result<()> {
    println!(rt; "two queues")?;
    let mut source = Queue::open();
    add_three(rt.alloc(), &mut source)?;
    print_pulls(rt, &Mutex::new(source), &Mutex::new(Queue::open()))
}

fn add_three(alloc: Global, queue: &mut Queue) -> Result<(), AllocError> {
    for number in 0..3 {
        add(alloc, queue, TaskId::new(number).unwrap())?;
    }
    Ok(())
}

fn print_pulls(
    rt: &(impl Print + Wait),
    lower: &Mutex<Queue>,
    higher: &Mutex<Queue>,
) -> io::Result<()> {
    for from_lower in [true, true, false] {
        let moved = pull(rt, lower, higher, from_lower);
        println!(rt; "{}", if moved { "a task moved" } else { "none moved" })?;
    }
    Ok(())
}

fn show_checked_input(rt: &(impl Print + AllocGlobal)) -> io::Result<()> {
    println!(rt; "checked input")?;
    let orders = [
        Order::Run { cpu: 0 },
        Order::Sleep { cpu: 0, task: 0 },
        Order::Run { cpu: 7 },
        Order::Sleep { cpu: 1, task: 9 },
        Order::Run { cpu: 1 },
    ];
    let setup = two_cpus(rt.alloc()).map_err(|_| out_of_memory())?;
    let answers = answers(rt.alloc(), &setup, &orders)?;
    print_answers(rt, &answers)
}

fn print_answers(rt: &impl Print, answers: &[Option<Answer>]) -> io::Result<()> {
    for answer in answers {
        match answer {
            Some(answer) => println!(rt; "{answer}")?,
            None => println!(rt; "refused")?,
        }
    }
    Ok(())
}

fn show_own_order(rt: &(impl Print + AllocGlobal)) -> io::Result<()> {
    println!(rt; "own order")?;
    let setup = pull_and_picks(rt.alloc()).map_err(|_| out_of_memory())?;
    match last_first(rt.alloc(), &setup, 100)? {
        Some(outcome) => print_lines(rt, outcome.history()),
        None => Ok(()),
    }
}

fn print_lines(rt: &impl Print, lines: &[Line]) -> io::Result<()> {
    for line in lines {
        println!(rt; "{line}")?;
    }
    Ok(())
}

fn show_two_threads(rt: &(impl Print + AllocGlobal + Threads + Wait + Sync)) -> io::Result<()> {
    println!(rt; "two threads")?;
    let setup = two_cpus(rt.alloc()).map_err(|_| out_of_memory())?;
    let sleeper = TaskId::new(1).unwrap();
    let closed = sleep_and_wake(rt, rt.alloc(), &setup, sleeper).map_err(no_run)?;
    print_closed(rt, &closed)
}

/// Prints what is the same in whatever order the threads come: the lines of CPU 0, and how many requests there were.
fn print_closed(rt: &impl Print, closed: &Closed) -> io::Result<()> {
    let mut requests = 0usize;
    for line in closed.history() {
        match line.deed {
            Deed::Pick { cpu } | Deed::Tick { cpu, .. } if cpu.get() == 0 => {
                println!(rt; "{line}")?
            }
            Deed::Wake { .. } => requests = requests.saturating_add(1),
            _ => (),
        }
    }
    if closed.cpus() == 2 {
        requests = requests.saturating_add(closed.left(0, 1).len());
    }
    println!(rt; "{requests} requests taken or left")?;
    Ok(())
}

fn show_barrier(rt: &(impl Print + AllocGlobal + Threads + Wait + Sync)) -> io::Result<()> {
    println!(rt; "barrier")?;
    let setup = cpus_with_a_task(rt.alloc(), 3).map_err(|_| out_of_memory())?;
    let met = met_with_history(rt, rt.alloc(), &setup).map_err(no_run)?;
    println!(rt; "{met} CPUs have met")
}

fn show_idle_pulls(rt: &(impl Print + AllocGlobal + Threads + Wait + Sync)) -> io::Result<()> {
    println!(rt; "idle pulls")?;
    let setup = three_at_one(rt.alloc()).map_err(|_| out_of_memory())?;
    let closed = until_end(rt, rt.alloc(), &setup, 1000).map_err(no_run)?;
    print_places(rt, &closed)
}

/// Prints what is the same in whatever order the threads come: how many tasks stand on how many CPUs.
fn print_places(rt: &impl Print, closed: &endless::Closed) -> io::Result<()> {
    let mut standing = 0usize;
    for queue in closed.queues.iter() {
        for number in 0..3 {
            let task = TaskId::new(number).unwrap();
            if queue.entry(task).is_some() || queue.asleep(task) {
                standing = standing.saturating_add(1);
            }
        }
    }
    println!(rt; "{standing} tasks on {} CPUs", closed.queues.len())?;
    Ok(())
}

fn show_barrier_without_history(
    rt: &(impl Print + AllocGlobal + Threads + Wait + Sync),
) -> io::Result<()> {
    println!(rt; "barrier without a history")?;
    let setup = cpus_with_a_task(rt.alloc(), 5).map_err(|_| out_of_memory())?;
    let met = met_without_history(rt, rt.alloc(), &setup).map_err(no_run)?;
    println!(rt; "{met} CPUs have met")
}

fn show_one_history(rt: &(impl Print + AllocGlobal + Threads + Wait + Sync)) -> io::Result<()> {
    println!(rt; "one history")?;
    let setup = three_at_one(rt.alloc()).map_err(|_| out_of_memory())?;
    tell_picks(rt, rt.alloc(), &setup, PICKS_TOLD).map_err(no_run)?;
    println!(rt; "{PICKS_TOLD} picks told to other CPUs")
}

fn show_parking(
    rt: &(impl Print + AllocGlobal + Threads + Wait + Sync),
    units: u64,
) -> io::Result<()> {
    println!(rt; "parking")?;
    let setup = four_cpus(rt.alloc()).map_err(|_| out_of_memory())?;
    let count = units_served(rt, rt.alloc(), &setup, units).map_err(no_run)?;
    println!(rt;
        "{} times a CPU stayed parked beside a crowded one",
        count.beside
    )?;
    println!(rt; "{} times a request stayed in a ring", count.left)?;
    println!(rt; "{} of {units} units taken", count.taken)?;
    println!(rt;
        "{} of {} numbers are free or in use",
        count.kept, count.numbers
    )
}

fn show_pool(rt: &(impl Print + AllocGlobal + Threads + Wait + Sync)) -> io::Result<()> {
    println!(rt; "pool of work")?;
    let setup = four_pool_cpus(rt.alloc()).map_err(|_| out_of_memory())?;
    let count = served(rt, rt.alloc(), &setup).map_err(no_run)?;
    println!(rt; "{} of {} requests came", count.came, count.requests)?;
    println!(rt;
        "{} of their tasks have ended or stand in a queue",
        count.found
    )?;
    println!(rt;
        "{} of {} numbers are free or in use",
        count.kept, count.numbers
    )?;
    println!(rt;
        "{} steps were taken under numbers that no task had",
        count.steps_of_nobody
    )
}

/// Why threads did no run.
fn no_run(fault: RunFault) -> io::Error {
    match fault {
        RunFault::Memory => out_of_memory(),
        RunFault::Start => io::Error::from(io::ErrorKind::WouldBlock),
    }
}

/// Of the setups of these programs nothing but memory can be refused.
fn out_of_memory() -> io::Error {
    io::Error::from(AllocError)
}
