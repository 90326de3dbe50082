//! How the virtual times of a queue are kept small.

ghost use Rattle.std.specs.Prelude.{◌≡◌, ◌+ℤ◌, pos, true};
ghost use Rattle.eevdf_queue.specs.Rebase as rebases;
ghost use Rattle.eevdf_queue.specs.Sums.{virtual_time};

use crate::queue::Queue;

impl Queue {
    /// Lowers all virtual times by one number, so that the virtual time is 0, and answers the number. The queue then answers every call
    /// as it would have, but for that number in virtual times and for `Range`
    /// ([`laws::lowered_queue_answers_alike`](crate::laws::lowered_queue_answers_alike)). Lags stay as they are, and so do places,
    /// which are kept by what all rebases have answered. Where a virtual runtime or a deadline would leave the range, or that sum
    /// ±2^120, all stays as it is and the answer is 0. It takes one walk over the runnable tasks, a second one where it is refused, and
    /// none where the virtual time is 0 already. The pick that is known stays known.
    #[inline(always)]
    pub fn rebase(&mut self) -> i64
        ensures by { result ≡ (rebases.rebase self.old.state).0 }
        ensures after { self.new.state ≡ (rebases.rebase self.old.state).1 }
        ensures time { rebases.can_rebase self.old.state ≡ true
            → virtual_time self.new.state ≡ pos 0 }
        ensures pick_depth { self.new.pick_depth ≡ self.old.pick_depth }
        ensures depths { self.new.depths ≡ self.old.depths }
    {
        let time = self.floor_time();
        let Some(shift) = shift_after(self.shift, time) else {
            return 0;
        };
        if !self.runnable.lower(time) {
            return 0;
        }
        self.base = 0;
        self.shift = shift;
        time
    }
}

/// The greatest shift.
const MOST_SHIFT: i128 = 1 << 120;

/// The shift once a rebase has answered this. `None` where it would be beyond the limit.
fn shift_after(shift: i128, by: i64) -> Option<i128>
    requires { rebases.is_shift shift ≡ true }
    ensures { result ≡ rebases.checked_shift (shift +ℤ by) }
{
    let after = shift + i128::from(by);
    if after < -MOST_SHIFT || MOST_SHIFT < after {
        None
    } else {
        Some(after)
    }
}
