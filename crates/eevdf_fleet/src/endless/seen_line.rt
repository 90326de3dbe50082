use crate::names::Names;
use crate::seen::Seen;
use eevdf_ops::Line;
use std::marker::Model;

/// A line that a CPU has done, and what its seat had seen then, which ends with it. Whoever has it knows that the line stands in the
/// history, and by `Fleet::agree` that it stands in one with what others have seen. It may go to other threads.
#[derive(Drop)]
pub struct SeenLine<N: Names> {
    pub line: Line,
    pub seen: Seen<N>,
}

impl<N: Names> Model for SeenLine<N> {
    ghost use Rattle.eevdf_fleet.specs.Endless.{EndsWith, SeenLine};

    ghost Value = { SeenLine };

    ghost view = { λ s. record { line = s.line; seen = s.seen } };

    ghost invariant = { λ s. EndsWith s.seen s.line };
}
