//! The shares of time that the tasks' weights give them.

use eevdf_ops::Setup;
use eevdf_weight::weight;
use std::alloc::{AllocError, Global};

/// Time is divided into so many parts of a nanosecond.
const PARTS: u128 = 1 << 40;

/// What the tasks on a CPU are given.
#[derive(Drop)]
struct Given {
    /// The sum of the weights of those that can run there.
    load: u64,
    /// What was given to each unit of weight so far, in parts, each time rounded up.
    each: u128,
}

/// What a task is given.
#[derive(Drop)]
struct Share {
    weight: u64,
    /// The CPU on which it can run, where it can.
    cpu: Option<usize>,
    /// What each unit of weight had been given there when it came.
    since: u128,
    /// What it was given before, in parts.
    had: u128,
}

impl Share {
    /// What it has been given on its CPU since it came there.
    fn has_since(&self, given: &Given) -> u128 {
        let each = given.each.saturating_sub(self.since);
        each.saturating_mul(self.weight as u128)
    }
}

/// What all tasks are given.
#[derive(Drop)]
pub(crate) struct FairShares {
    cpus: Vec<Given>,
    tasks: Vec<Share>,
}

impl FairShares {
    /// The tasks of a setup at the start.
    pub fn of(alloc: Global, setup: &Setup) -> Result<FairShares, AllocError> {
        let mut cpus = Vec::new(alloc);
        for _cpu in 0..setup.cpus() {
            cpus.push(Given { load: 0, each: 0 })?;
        }
        let mut shares = FairShares {
            cpus,
            tasks: Vec::new(alloc),
        };
        for (task, spec) in setup.each_task() {
            shares.tasks.push(Share {
                weight: weight(spec.nice),
                cpu: None,
                since: 0,
                had: 0,
            })?;
            if !spec.asleep {
                shares.comes(task.index(), spec.home.index());
            }
        }
        Ok(shares)
    }

    /// So much time has gone by on a CPU, in nanoseconds.
    pub fn passes(&mut self, cpu: usize, ns: u64) {
        if let Some(given) = self.cpus.get_mut(cpu) {
            let time = (ns as u128).saturating_mul(PARTS);
            let load = given.load as u128;
            if let Some(each) = time
                .saturating_add(load)
                .saturating_sub(1)
                .checked_div(load)
            {
                given.each = given.each.saturating_add(each);
            }
        }
    }

    /// From now on a task can run on a CPU.
    pub fn comes(&mut self, task: usize, cpu: usize) {
        if let (Some(share), Some(given)) = (self.tasks.get_mut(task), self.cpus.get_mut(cpu)) {
            share.cpu = Some(cpu);
            share.since = given.each;
            given.load = given.load.saturating_add(share.weight);
        }
    }

    /// From now on a task can run nowhere.
    pub fn leaves(&mut self, task: usize) {
        let Some(share) = self.tasks.get_mut(task) else {
            return;
        };
        if let Some(given) = share.cpu.and_then(|cpu| self.cpus.get_mut(cpu)) {
            share.had = share.had.saturating_add(share.has_since(given));
            given.load = given.load.saturating_sub(share.weight);
        }
        share.cpu = None;
    }

    /// From now on a task that can run has another weight.
    pub fn weighs(&mut self, task: usize, weight: u64) {
        let cpu = match self.tasks.get(task) {
            Some(share) => share.cpu,
            None => return,
        };
        self.leaves(task);
        if let Some(share) = self.tasks.get_mut(task) {
            share.weight = weight;
        }
        if let Some(cpu) = cpu {
            self.comes(task, cpu);
        }
    }

    /// The hundredths of a per cent of so many nanoseconds that so many tasks from a first one on were given, rounded down.
    pub fn hundredths(&self, first: usize, tasks: usize, lasts: u64) -> u64 {
        let mut had = 0u128;
        for number in 0..tasks {
            had = had.saturating_add(self.had_by(first.saturating_add(number)));
        }
        let hundredths = had
            .saturating_mul(10_000)
            .checked_div((lasts as u128).saturating_mul(PARTS))
            .unwrap_or(0);
        u64::try_from(hundredths).unwrap_or(u64::MAX)
    }

    /// What a task was given up to now, in parts.
    fn had_by(&self, task: usize) -> u128 {
        let Some(share) = self.tasks.get(task) else {
            return 0;
        };
        let since = match share.cpu.and_then(|cpu| self.cpus.get(cpu)) {
            Some(given) => share.has_since(given),
            None => 0,
        };
        share.had.saturating_add(since)
    }
}
