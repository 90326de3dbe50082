//! Where a drain puts the wakes that it has decided.

ghost use Rattle.std.specs.Prelude.{◌≡◌, ℕ, ◌+◌, ◌-◌, ◌<◌, ◌≤◌, List, [], ◌∷◌, ◌++◌, vec_capacity, vec_len};
ghost use Rattle.eevdf_ops.specs.Numbers.{most_cpus};
ghost use Rattle.eevdf_fleet.specs.declared.wake_list.DrainedWake.{DrainedWake};

use eevdf_ops::{Answer, CpuId};
use eevdf_queue::TaskId;

/// A request that a drain took, with what became of it.
#[derive(Clone, Copy, PartialEq, Eq, Debug, Drop)]
pub struct DrainedWake {
    /// The task that was to be woken.
    pub task: TaskId,
    /// The CPU whose seat posted the request.
    pub sender: CpuId,
    /// `Woken`; `Awake`: the task didn't sleep here; `Range`: it couldn't be placed in range. The last two changed nothing.
    pub answer: Answer,
}

/// A list that takes wakes one after the other, or something in the place of one.
pub(crate) trait WakeList {
    /// How many wakes more it takes at least.
    ghost room: { Self → ℕ };

    /// The first has become the second by taking these wakes, in order.
    ghost has_taken: { Self → List DrainedWake → Self → Type 0 };

    /// Takes a wake.
    fn take(&mut self, wake: DrainedWake)
        requires { 0 < room self.old }
        ensures room { room self.old ≤ room self.new + 1 }
        ensures wake { (before : Self) (wakes : List DrainedWake) → has_taken before wakes self.old
            → has_taken before (wakes ++ wake ∷ []) self.new };

    /// Nothing was taken so far.
    ghost none: { (it : Self) → has_taken it [] it };
}

/// In the place of a list where the wakes are counted alone.
#[derive(Drop)]
pub(crate) struct Unlisted;

impl WakeList for Unlisted {
    ghost room = { λ _. most_cpus };

    ghost has_taken = { λ _ _ _. Unit {0} };

    #[inline(always)]
    fn take(&mut self, _wake: DrainedWake) {}

    ghost none = { λ _. tt };
}

impl WakeList for Vec<DrainedWake> {
    ghost use Rattle.std.proofs.Common.{sym, refl};
    ghost use Rattle.std.proofs.lemmas.List.{append-nil};

    ghost room = { λ list. vec_capacity list - vec_len list };

    ghost has_taken = { λ before wakes after. (after.items ≡ before.items ++ wakes)
        × (vec_capacity after ≡ vec_capacity before) };

    #[inline(always)]
    fn take(&mut self, wake: DrainedWake) {
        // Taken apart, and put together in its place: of one that stays whole the checker can't follow the push.
        let DrainedWake {
            task,
            sender,
            answer,
        } = wake;
        self.push_reserved(DrainedWake {
            task,
            sender,
            answer,
        });
    }

    ghost none = { λ list. (sym (append-nil list.items), refl) };
}
