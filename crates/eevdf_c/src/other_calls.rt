//! The calls that none beside bounds stands for.
//!
//! Nobody calls this. Its contract says what C may rely on where it makes them of a queue that has bounds: the bounds need no care.

ghost use Rattle.eevdf_c.specs.OtherCalls.{OtherCallsKeepBounds};

use eevdf_fair_queue::laws::leavings_keep_bounds;

/// Where bounds are true they are true after each of these calls, whatever it answers: each comes to calls of a queue by which they stay
/// true.
pub fn other_calls_keep_bounds()
    ensures { OtherCallsKeepBounds }
{
    leavings_keep_bounds();
}
