//! How tasks come into a queue and leave it, where the caller hasn't tested the conditions.

ghost use Rattle.std.specs.Prelude.{◌≡◌, Ok, Err, MatchResult};
ghost use Rattle.eevdf_queue.specs.Moves as moves;
ghost use Rattle.eevdf_queue.specs.{Placing.put, Trying.tried};

use crate::parcel::Parcel;
use crate::queue::Queue;
use crate::refusal::{Refusal, Refused};

impl Queue {
    /// Makes a task runnable at the start of its parcel, with a fresh request, as `admit` does. Where the task is here
    /// already, or else where the virtual runtime or the deadline would be out of range, the parcel comes back with that
    /// reason, and nothing has changed.
    pub fn try_admit(&mut self, parcel: Parcel) -> Result<(), Refused>
        ensures cases { MatchResult result
            (λ _. tried self.old.state parcel.task (moves.admit self.old.state parcel)
            ≡ Ok self.new.state)
            (λ refused. (tried self.old.state parcel.task (moves.admit self.old.state parcel)
            ≡ Err refused.reason)
            × (refused.parcel ≡ parcel) × (self.new.state ≡ self.old.state)) }
        ensures pick_depth { self.new.pick_depth ≡ self.old.pick_depth }
    {
        if self.contains(parcel.task()) {
            return Err(Refusal::Present.of(parcel));
        }
        match self.admit(parcel) {
            Ok(()) => Ok(()),
            Err(parcel) => Err(Refusal::Range.of(parcel)),
        }
    }

    /// Makes a task runnable with the lag of its parcel, as `attach` does. Where the task is here already, or else where
    /// it can't be placed in range, the parcel comes back with that reason, and nothing has changed.
    #[tactic(auto, using(crate::proofs::Joining::not_joined, crate::proofs::Joining::sleeper_read))]
    pub fn try_attach(&mut self, parcel: Parcel) -> Result<(), Refused>
        ensures cases { MatchResult result
            (λ _. tried self.old.state parcel.task
            (put self.old.state parcel.task (moves.sleeper_of parcel)) ≡ Ok self.new.state)
            (λ refused.
            (tried self.old.state parcel.task
            (put self.old.state parcel.task (moves.sleeper_of parcel)) ≡ Err refused.reason)
            × (refused.parcel ≡ parcel) × (self.new.state ≡ self.old.state)) }
        ensures pick_depth { self.new.pick_depth ≡ self.old.pick_depth }
    {
        if self.contains(parcel.task()) {
            return Err(Refusal::Present.of(parcel));
        }
        if !self.can_place(parcel.nice(), parcel.slice(), parcel.lag()) {
            return Err(Refusal::Range.of(parcel));
        }
        self.attach(parcel);
        Ok(())
    }
}
