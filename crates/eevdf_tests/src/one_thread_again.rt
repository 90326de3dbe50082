//! What several threads did, done again by one.

ghost use Rattle.std.specs.Prelude.{◌≡◌, IfOk, true};
ghost use Rattle.std.specs.List.{list_all};
ghost use Rattle.eevdf_ops.specs.Programs.{deeds_of};
ghost use Rattle.eevdf_ops.specs.Setup.{allows};

use eevdf_ops::one_thread::solo;
use eevdf_ops::{Deed, Line, Outcome, Setup};
use std::alloc::{AllocError, Global};
use std::process::Abort;

/// The deeds of a history.
pub fn deeds(alloc: Global, lines: &[Line]) -> Result<Vec<Deed>, AllocError>
    ensures { IfOk result (λ v. v.items ≡ deeds_of lines.now) }
{
    lines.iter().map(|line| line.deed).collect(alloc)
}

/// What one thread comes to that does the deeds of the outcome's lines one after the other.
pub fn done_alone(rt: &impl Abort, alloc: Global, setup: &Setup, outcome: &Outcome) -> Outcome
    requires { list_all (allows setup.now) (deeds_of outcome.now.lines) ≡ true }
{
    let deeds = deeds(alloc, outcome.history()).expect(rt, "memory");
    solo(alloc, setup, &deeds).expect(rt, "memory")
}
