//! All runnable tasks lowered by one number in virtual time.

ghost use Rattle.std.specs.Prelude.{◌≡◌, ◌≤◌, ◌^◌, true, false, unsigned_abs, pos};
ghost use Rattle.eevdf_queue.specs.Rebase.{can_lower, lowered_tasks};

use crate::tree::lowering::{lower_moment, opposite};
use crate::tree::runnable_tasks::RunnableTasks;

impl RunnableTasks {
    /// Lowers the virtual runtimes and the deadlines of all tasks, in one walk over them, and answers whether all stay in range;
    /// where they don't, they stay as they are, by a second walk. Lowered by nothing they are in range as they stand, so there is no
    /// walk. The pick that is kept stays so.
    #[tactic(auto, using(crate::proofs::TreeTotals::totals_near, crate::proofs::LoweredLists::near_runnable, crate::proofs::LoweredLists::near_lowered, crate::proofs::PickedTasks::sums_kept))]
    pub fn lower(&mut self, by: i64) -> bool
        requires { unsigned_abs by ≤ 2 ^ 60 }
        ensures in_range { result ≡ can_lower by self.old.tasks }
        ensures lowered { result ≡ true → self.new.tasks ≡ lowered_tasks by self.old.tasks }
        ensures stayed { result ≡ false → self.new.tasks ≡ self.old.tasks }
        ensures depths { self.new.depths ≡ self.old.depths }
    {
        if by == 0 {
            self.keeps_range();
            return true;
        }
        if !self.tree.lower(&mut self.deadlines, by) {
            let _ = self.tree.lower(&mut self.deadlines, opposite(by));
            return false;
        }
        lower_moment(&mut self.totals, by);
        self.picked.lower(by);
        true
    }

    /// Learns that all tasks are in range, so that they stay as they are where they are lowered by nothing.
    #[tactic(auto, using(crate::proofs::LoweredMaps::can_stay, crate::proofs::LoweredMaps::stays_lowered))]
    fn keeps_range(&self)
        ensures in_range { can_lower (pos 0) self.now.tasks ≡ true }
        ensures stayed { lowered_tasks (pos 0) self.now.tasks ≡ self.now.tasks }
    {
        let _tree = &self.tree;
    }
}
