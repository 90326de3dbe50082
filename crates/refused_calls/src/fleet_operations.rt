//! Operations of a fleet.

ghost use Rattle.std.specs.Prelude.{◌≡◌};
ghost use Rattle.eevdf_fleet.specs.Fleets.{setup_of};

use crate::every_operation::every_operation;
use eevdf_fleet::{Fleet, Names, Seat};
use eevdf_ops::Setup;
use std::sync::Wait;

/// Does the program of a seat's CPU, and then one operation of each kind.
pub fn operate<N: Names, R: Wait>(rt: &R, fleet: &Fleet<N>, setup: &Setup, seat: &mut Seat<N>)
    requires { setup_of N.kit ≡ setup.now }
{
    let cpu = seat.cpu();
    prove!((cpu.get() as usize) < setup.cpus());
    for operation in setup.program(cpu) {
        let _done = fleet.try_operate(rt, seat, *operation);
    }
    if let Some(operations) = every_operation(cpu) {
        for operation in &operations {
            let _done = fleet.try_operate(rt, seat, *operation);
        }
    }
    let _ = seat.log();
    let _ = seat.room();
}
