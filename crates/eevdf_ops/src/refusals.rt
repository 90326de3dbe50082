//! Which deeds are refused.

ghost use Rattle.std.specs.Prelude.{◌≡◌};
ghost use Rattle.eevdf_ops.specs.Refusals.{is_refused, is_yield};

use crate::deeds::{Answer, Deed, Line};

impl Line {
    /// Whether the deed was refused: it changed nothing, since the machine wasn't as the deed takes it to be. A pick that finds nothing, the
    /// tick of idle time, and a pull that is `Nothing` or `Balanced` are no refusals.
    pub fn is_refused(&self) -> bool
        ensures { result ≡ is_refused self.now }
    {
        match self.answer {
            Answer::NotRunning | Answer::Awake | Answer::NotHere | Answer::Range => true,
            Answer::Idle => is_yield(self.deed),
            _ => false,
        }
    }
}

fn is_yield(deed: Deed) -> bool
    ensures { result ≡ is_yield deed }
{
    match deed {
        Deed::Yield { .. } => true,
        _ => false,
    }
}
