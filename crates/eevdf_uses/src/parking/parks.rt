//! Tasks that park and are unparked: a wake that comes while its task is awake leaves a token.

ghost use Rattle.std.specs.Prelude.{◌≡◌};

use crate::parking::{CPUS, OnCpu, Parking};
use crate::shared_work::Running;
use eevdf_fleet::Names;
use eevdf_fleet::endless::Seat;
use eevdf_queue::TaskId;
use std::sync::Wait;

impl<'a, N: Names, R: Wait> Running<'a, Parking, N, R> {
    /// Leaves a token for a task of this home. If the task sleeps here by now, its park may have looked for the token too early.
    pub fn leave_token(&self, seat: &mut Seat<N>, task: TaskId)
        ensures { seat.new.cpu ≡ seat.old.cpu }
    {
        self.work.desks.leave_token(task);
        if self.sleeps_here(seat, task) && self.work.desks.take_token(task) {
            self.unpark(seat, task);
        }
    }

    /// Whether a task sleeps on this CPU.
    fn sleeps_here(&self, seat: &mut Seat<N>, task: TaskId) -> bool
        ensures { seat.new.cpu ≡ seat.old.cpu }
    {
        let cpu = seat.cpu();
        self.fleet
            .look(self.rt, seat, cpu, |queue| queue.asleep(task))
    }

    /// Parks the task that runs: it sleeps until it is unparked, unless there is a token. A park may also end without an unpark.
    fn park(&self, seat: &mut Seat<N>, task: TaskId)
        ensures { seat.new.cpu ≡ seat.old.cpu }
    {
        if self.work.desks.take_token(task) || !self.fleet.has_task(task) {
            return;
        }
        let _ = self.fleet.sleep(self.rt, seat, task);
        if self.work.desks.take_token(task) {
            self.unpark(seat, task);
        }
    }

    /// Posts a request to wake a task, and sends its home an interrupt, if that waits. Rings have room for all requests of a round.
    pub fn unpark(&self, seat: &mut Seat<N>, task: TaskId)
        ensures { seat.new.cpu ≡ seat.old.cpu }
    {
        if self.fleet.has_task(task) {
            self.work.rounds.count_request();
            match seat.post_and_look(task) {
                Ok(true) => self.work.interrupt_home(task.get() % CPUS),
                Ok(false) => (),
                Err(_) => self.work.rounds.count_taken(1),
            }
        }
    }

    /// Lets the task that runs end, which gives its number back, or park.
    pub fn finish(&self, seat: &mut Seat<N>, own: &mut OnCpu, task: TaskId)
        ensures { seat.new.cpu ≡ seat.old.cpu }
    {
        if self.work.desks.closes(task) {
            let live = &self.work.live;
            let _ = live.end(self.rt, self.fleet, seat, &mut own.free, task);
        } else {
            self.park(seat, task);
        }
    }
}
