//! What a CPU does when it is its turn, and when that is.

use crate::processor::{NEVER, Picks};
use crate::schedule::Schedule;
use crate::stop::Stop;
use eevdf_ops::{CpuId, Deed, Solo};
use eevdf_weight::Ns;

impl Schedule {
    /// The next deed of a CPU at this moment. `None` where it has nothing more to do at it.
    pub fn turn(&mut self, machine: &Solo, place: usize, now: u64) -> Result<Option<Deed>, Stop> {
        if let Some(deed) = self.charge(place, now) {
            return Ok(Some(deed));
        }
        self.hear_tick(place, now);
        let processor = self.processors.get(place).ok_or(Stop::OtherSetup)?;
        let cpu = processor.id;
        if processor.picks == Picks::Now {
            return Ok(Some(Deed::Pick { cpu }));
        }
        let picks_soon = processor.picks == Picks::Soon;
        let Some(running) = processor.running else {
            return Ok(if picks_soon {
                Some(Deed::Pick { cpu })
            } else {
                self.look_for_work(machine, place, cpu, now)
            });
        };
        let deed = self.go_on(place, running, now)?;
        if deed.is_none() && picks_soon {
            return Ok(Some(Deed::Pick { cpu }));
        }
        Ok(deed)
    }

    /// Where the clock ticks at this moment, the CPU is to pick if a task has woken there.
    fn hear_tick(&mut self, place: usize, now: u64) {
        let tick = self.plan.tick;
        if tick == 0 {
            return;
        }
        if let Some(processor) = self.processors.get_mut(place) {
            if processor.running.is_some() && processor.ticks_at <= now {
                if processor.is_woken {
                    processor.pick_soon();
                }
                processor.tick_after(now, tick);
            }
        }
    }

    /// The pull from the next CPU in turn that has two tasks or more, when that one is charged.
    fn look_for_work(
        &mut self,
        machine: &Solo,
        place: usize,
        cpu: CpuId,
        now: u64,
    ) -> Option<Deed> {
        if !self.plan.pull {
            return None;
        }
        let cpus = self.processors.len();
        let looked = self.processors.get(place)?.looked;
        for steps in looked.saturating_add(1)..cpus {
            let source_place = place_after(place, steps, cpus);
            if self.has_others(machine, source_place) {
                if let Some(deed) = self.charge(source_place, now) {
                    return Some(deed);
                }
                let source = self.processors.get(source_place)?.id;
                self.processors.get_mut(place)?.looked = steps;
                return Some(Deed::Pull { cpu, source });
            }
        }
        self.processors.get_mut(place)?.looked = usize::MAX;
        None
    }

    /// Whether a CPU has two tasks or more that are runnable.
    pub fn has_others(&self, machine: &Solo, place: usize) -> bool {
        match self.processors.get(place) {
            Some(processor) if machine.has_cpu(processor.id) => {
                machine.queue(processor.id).len() >= 2
            }
            _ => false,
        }
    }

    /// Plans when a CPU does something next.
    pub fn plan_next(&mut self, machine: &Solo, place: usize, now: u64) {
        let next = self.next_of(machine, place, now);
        if let Some(processor) = self.processors.get_mut(place) {
            processor.next = next;
        }
    }

    /// When a CPU does something next.
    fn next_of(&self, machine: &Solo, place: usize, now: u64) -> u64 {
        let Some(processor) = self.processors.get(place) else {
            return NEVER;
        };
        if processor.picks != Picks::No {
            return now;
        }
        let Some(running) = processor.running else {
            let looks = self.plan.pull && processor.looked < self.processors.len();
            return if looks { now } else { NEVER };
        };
        let left = match self.actors.get(running) {
            Some(actor) => actor.left,
            None => return NEVER,
        };
        let end = processor.charged.saturating_add(left);
        if self.plan.tick > 0 {
            return end.min(processor.ticks_at);
        }
        if !self.has_others(machine, place) {
            return end;
        }
        end.min(
            processor
                .charged
                .saturating_add(request_left(machine, processor.id).get()),
        )
    }
}

/// How long the task that runs on a CPU may run until its request is used up, or the longest tick, where more is left: the clock is to stop
/// within each tick that is charged, so that it never comes back to the end of a request.
fn request_left(machine: &Solo, cpu: CpuId) -> Ns {
    let left = if machine.has_cpu(cpu) {
        machine.queue(cpu).time_to_resched()
    } else {
        None
    };
    left.unwrap_or(Ns::MAX)
}

/// The place so many steps on, around.
fn place_after(place: usize, steps: usize, cpus: usize) -> usize {
    place.saturating_add(steps).checked_rem(cpus).unwrap_or(0)
}
