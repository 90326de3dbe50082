ghost use Rattle.std.specs.Prelude.{ℕ};

use std::sync::Wait;

/// All that the thread of a CPU does with the CPU's seat, of whatever fleet it is.
pub(crate) trait SeatWork<S> {
    /// What holds of the work and of the seat of this number before it.
    ghost fits: { Self → ℕ → S → Type 0 };

    /// What holds of the seat of this number when the work is done.
    ghost is_done: { Self → ℕ → S → Type 0 };

    /// Does the work, and gives the seat back.
    fn work<R: Wait>(&self, rt: &R, number: usize, seat: S) -> S
        requires { fits self.now number seat }
        ensures { is_done self.now number result };

    /// Says to the works on all seats that a thread was refused, and that those for this seat and for later ones never come.
    fn note_refused_thread(&self);
}
