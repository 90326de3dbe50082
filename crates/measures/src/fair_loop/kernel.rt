ghost use Rattle.std.specs.Prelude.{◌≡◌, ◌≤◌, ◌<ℤ◌, ◌≤ℤ◌, MatchResult};
ghost use Rattle.std.specs.Int.{int_max};
ghost use Rattle.eevdf_fair_queue.specs.Lateness.{NoneIsLaterThan, lateness_bound};

use crate::fair_loop::drawn_calls::make_call;
use crate::fair_loop::lacks::Lacks;
use drawn_values::Draws;
use eevdf_fair_queue::FairQueue;
use eevdf_fair_queue::laws::none_is_later_than_more;
use std::alloc::Global;

/// The queue of a kernel, whose calls are drawn.
#[derive(Drop)]
pub struct Kernel {
    pub queue: FairQueue,
    /// The greatest bound that was read: no request is later than that.
    pub greatest: i64,
    /// What the tasks lacked of their shares.
    pub lacks: Lacks,
    pub ghost late: { NoneIsLaterThan queue.queue.state greatest },
}

/// After so many steps a bound was read that is above the promised one.
#[derive(Clone, Copy, Debug, Drop)]
pub struct Stopped {
    pub after: u64,
}

impl Kernel {
    /// A kernel without tasks.
    pub fn open() -> Kernel {
        let queue = FairQueue::open();
        let greatest = queue.lateness_bound();
        Kernel {
            queue,
            greatest,
            lacks: Lacks::none(),
        }
    }

    /// Makes one drawn call, and reads the bound after it, and what tasks lack.
    pub fn step(&mut self, alloc: Global, draws: &mut Draws)
        ensures { self.new.greatest ≡ int_max self.old.greatest
            (lateness_bound self.new.queue.queue.state self.new.queue.bounds) }
    {
        let moved = make_call(&mut self.queue, alloc, draws);
        self.lacks.look(&self.queue, moved);
        let bound = self.queue.lateness_bound();
        let greatest = self.greatest.max(bound);
        none_is_later_than_more(&self.queue, bound, greatest);
        self.greatest = greatest;
    }

    /// Goes on for so many steps, and stops where a bound was read that is above the promised one. Where all are done, each bound was
    /// within it, and no request is later than that now.
    pub fn run(
        &mut self,
        alloc: Global,
        draws: &mut Draws,
        steps: u64,
        promised: i64,
    ) -> Result<(), Stopped>
        ensures { MatchResult result
            (λ _. (self.new.greatest ≤ℤ promised) × NoneIsLaterThan self.new.queue.queue.state promised)
            (λ stopped. (promised <ℤ self.new.greatest) × (stopped.after ≤ steps)) }
    {
        for after in 0..steps {
            self.keeps(promised, after)?;
            self.step(alloc, draws);
        }
        self.keeps(promised, steps)
    }

    /// Whether each bound that was read was within the promised one.
    fn keeps(&self, promised: i64, after: u64) -> Result<(), Stopped>
        ensures { MatchResult result
            (λ _. (self.now.greatest ≤ℤ promised) × NoneIsLaterThan self.now.queue.queue.state promised)
            (λ stopped. (promised <ℤ self.now.greatest) × (stopped.after ≡ after)) }
    {
        if promised < self.greatest {
            return Err(Stopped { after });
        }
        none_is_later_than_more(&self.queue, self.greatest, promised);
        Ok(())
    }
}
