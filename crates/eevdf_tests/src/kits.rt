//! Kits of fleets of both kinds.

ghost use Rattle.std.specs.Prelude.{◌≡◌};
ghost use Rattle.eevdf_fleet.specs.Fleets.{setup_of};

use eevdf_fleet::{Kit, endless};
use eevdf_ops::Setup;
use std::alloc::Global;
use std::process::Abort;

/// A kit, whose quota and rings are to be such as a kit may have.
pub fn kit_of(rt: &impl Abort, alloc: Global, setup: &Setup, quota: usize, rings: usize) -> Kit
    ensures { setup_of result ≡ setup.now }
{
    assert!(rt; quota <= 1_000_000 && rings <= 1_000_000);
    Kit::make(alloc, setup, quota, rings).expect(rt, "memory")
}

/// A kit of a fleet that keeps no history, whose rings are to be such as a kit may have.
pub fn endless_kit_of(rt: &impl Abort, alloc: Global, setup: &Setup, rings: usize) -> endless::Kit
    ensures { setup_of result ≡ setup.now }
{
    assert!(rt; rings <= 1_000_000);
    endless::Kit::make(alloc, setup, rings).expect(rt, "memory")
}
