//! How the tasks of a group that arrive begin.

use crate::actor::Condition;
use crate::processor::NEVER;
use crate::schedule::Schedule;
use eevdf_ops::Deed;

impl Schedule {
    /// Begins the task that arrives next, with the least free number of its group, when its home is charged. It sleeps until now. `None`
    /// where the plan has no such group or task.
    pub fn begin(&mut self, now: u64) -> Option<Deed> {
        let group = self.arrives;
        let place = self.free_of(group)?;
        let actor = self.actors.get(place)?;
        let task = actor.id;
        let cpu = actor.home;
        if let Some(deed) = self.charge(cpu.index(), now) {
            return Some(deed);
        }
        let arrived = self.comers.get_mut(group)?.begins(place);
        self.actors.get_mut(place)?.begins(arrived, now);
        self.sleeps_until(place, now);
        self.find_arrival();
        let of_group = self.plan.groups.get(group)?;
        Some(Deed::Begin {
            cpu,
            task,
            nice: of_group.nice,
            slice: of_group.slice,
        })
    }

    /// The place of the task of least number of a group that has ended.
    fn free_of(&self, group: usize) -> Option<usize> {
        let first = self.comers.get(group)?.free.first()?;
        self.first_of(group, Condition::Ended, first)
    }

    /// The task at a place, of a group, has ended, and gives its number back.
    pub fn gives_back(&mut self, place: usize, group: usize) {
        if let Some(comers) = self.comers.get_mut(group) {
            comers.free.adds(place);
        }
        self.find_arrival();
    }

    /// Looks for the first of the groups of which a task begins at the least moment.
    pub fn find_arrival(&mut self) {
        self.arrives_at = NEVER;
        for (group, comers) in self.comers.iter().enumerate() {
            let moment = comers.begins_at();
            if moment < self.arrives_at {
                self.arrives_at = moment;
                self.arrives = group;
            }
        }
    }
}
