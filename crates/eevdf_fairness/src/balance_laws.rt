//! Laws of how much of the time of a balanced machine each task has, each the contract of a function that does nothing.

ghost use Rattle.std.specs.Prelude.{◌+◌, ◌*◌};
ghost use Rattle.eevdf_fairness.specs.IdealTime.{BalancedGivesOfTime, HealedCpuGivesShares};

/// From any state of a CPU's queue on each of its tasks has its share of the time that the lines tell, once the CPU has caught up with a
/// front that no task was past, while of the deeds of all CPUs none but its turns, and pulls that fail, touch its queue.
pub fn healed_cpu_gives_shares()
    ensures { HealedCpuGivesShares }
{
    eevdf_ops::laws::others_stay();
    eevdf_balance::laws::failed_pulls_can_be_left_out();
    crate::laws::healed_turns_give_shares();
}

/// After the last pull, half of the ideal share: where the least loaded of n CPUs would take neither of two tasks of a CPU, and that has
/// caught up, each task of that CPU runs for at least `(n + 1) / 2n` of its ideal share of the time that the CPU runs, but for a constant
/// and for what rounding takes. The constant is the task's swing, and doesn't grow with the time.
pub fn balanced_gives_half_of_time()
    ensures { BalancedGivesOfTime (λ n. n + 1) (λ n. 2 * n) }
{
    healed_cpu_gives_shares();
    eevdf_balance::laws::balanced_gives_half();
}
