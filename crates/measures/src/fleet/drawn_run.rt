//! A run with its machine: its tasks spread over the CPUs in turn, with drawn levels, slices and starts.

use crate::fleet::asked_run::AskedRun;
use crate::fleet::mix::Mix;
use crate::machines::machine_of;
use drawn_values::Draws;
use eevdf_ops::{CpuId, Setup, TaskSpec};
use std::alloc::{AllocError, Global};

/// A run that is asked for, the machine that is drawn for it, and what it is done with.
#[derive(Drop)]
pub struct DrawnRun<'a, R> {
    pub rt: &'a R,
    pub alloc: Global,
    pub asked: AskedRun,
    pub setup: Setup,
}

impl<'a, R> DrawnRun<'a, R> {
    /// The run with its machine. It fails only when out of memory.
    pub fn draw(rt: &'a R, alloc: Global, asked: &AskedRun) -> Result<DrawnRun<'a, R>, AllocError> {
        Ok(DrawnRun {
            rt,
            alloc,
            asked: *asked,
            setup: machine_of(alloc, &drawn_tasks(alloc, asked)?, asked.cpus())?,
        })
    }
}

fn drawn_tasks(alloc: Global, run: &AskedRun) -> Result<Vec<TaskSpec>, AllocError> {
    let cpus = run.cpus();
    let mut draws = Draws::new(run.seed, 0);
    let mut tasks = Vec::with_capacity(alloc, run.tasks)?;
    for number in 0..run.tasks {
        let home = CpuId::new((number % cpus) as u64).unwrap();
        tasks.push(drawn_task(&mut draws, run.mix, home))?;
    }
    Ok(tasks)
}

fn drawn_task(draws: &mut Draws, mix: Mix, home: CpuId) -> TaskSpec {
    TaskSpec {
        home,
        nice: draws.nice(),
        slice: draws.slice(),
        start: draws.start(),
        asleep: match mix {
            Mix::All => draws.below(4) == 0,
            Mix::Comes => draws.below(2) == 0,
            Mix::Own | Mix::Wakes | Mix::Pulls => false,
        },
    }
}
