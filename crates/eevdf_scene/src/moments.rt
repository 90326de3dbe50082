//! The time of each deed.

ghost use Rattle.std.specs.Prelude.{◌≡◌, IfOk};
ghost use Rattle.eevdf_clocks.specs.Times.{moments_of};

use eevdf_clocks::{Clocks, Moment};
use eevdf_ops::Line;
use std::alloc::{AllocError, Global};

/// The lines of a history with their times, as its clocks give them. It is refused memory alone.
pub fn timed(alloc: Global, lines: &[Line]) -> Result<Vec<Moment>, AllocError>
    ensures { IfOk result (λ moments. moments.items ≡ moments_of lines.now) }
{
    let mut clocks = Clocks::open(alloc)?;
    let mut moments = Vec::with_capacity(alloc, lines.len())?;
    for line in lines {
        let moment = clocks.pass(*line);
        moments.push(moment)?;
    }
    Ok(moments)
}
