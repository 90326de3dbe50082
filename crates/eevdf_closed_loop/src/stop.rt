//! Why a machine is driven no further.

use eevdf_ops::{Deed, Line};

/// Why a machine is driven no further.
#[derive(Clone, Copy, PartialEq, Eq, Debug)]
pub enum Stop {
    /// It has been driven for as long as it lasts.
    Ended,
    /// A virtual runtime or deadline would leave its range.
    Range,
    /// The task of this number goes through phases without end that take no time.
    Endless(usize),
    /// What comes next was looked for again and again, and no deed came of it.
    Stuck,
    /// The machine doesn't allow the deed that comes next.
    Refused(Deed),
    /// A deed was answered as no deed of the plan is.
    Unexpected(Line),
    /// The plan has no task, CPU, group or phase where its machine has one: the setup isn't that of the plan.
    OtherSetup,
}
