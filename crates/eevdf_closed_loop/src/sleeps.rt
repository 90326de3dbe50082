//! By which deed tasks fall asleep.

ghost use Rattle.std.specs.Prelude.{◌≡◌, true};
ghost use Rattle.eevdf_closed_loop.specs.Sleeps.{is_by};

use crate::plan::FallAsleep;
use eevdf_ops::Deed;

/// A deed, or, where it is one by which a task falls asleep, the one by which tasks do.
pub(crate) fn deed_by(fall_asleep: FallAsleep, deed: Deed) -> Deed
    ensures { is_by fall_asleep result ≡ true }
{
    match (fall_asleep, deed) {
        (FallAsleep::Doze, Deed::Sleep { cpu, task }) => Deed::Doze { cpu, task },
        (FallAsleep::Sleep, Deed::Doze { cpu, task }) => Deed::Sleep { cpu, task },
        _ => deed,
    }
}
