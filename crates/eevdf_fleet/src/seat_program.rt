//! How the program of a CPU is run by its seat.

ghost use Rattle.std.specs.Prelude.{◌≡◌, ◌≢◌, ◌≤◌, ◌<◌, ℕ, [], length, None};
ghost use Rattle.eevdf_ops.specs.{Faults.operation_fault, Followed.program_of, Programs.post_of};
ghost use Rattle.eevdf_ops.specs.{Setup.cpus_of, Setup.homes_of};
ghost use Rattle.eevdf_fleet.specs.Fleets.{fresh, posted_to, setup_of};
ghost use Rattle.eevdf_fleet.specs.ProgramRuns.{HasOperated, HasRun, quota_for, rings_for};
ghost use Rattle.eevdf_fleet.specs.ProgramRuns.{room_for};

use crate::call::Call;
use crate::fleet::Fleet;
use crate::gate::Gate;
use crate::names::Names;
use crate::seat::Seat;
use eevdf_ops::{Op, Setup};
use std::sync::Wait;

impl<N: Names> Fleet<N> {
    /// Runs the program of the seat's CPU, and gives the seat back.
    pub(crate) fn run_program<R: Wait, G: Gate>(
        &self,
        rt: &R,
        gate: &G,
        setup: &Setup,
        mut seat: Seat<N>,
    ) -> Seat<N>
        requires setup { setup_of N.kit ≡ setup.now }
        requires fresh { seat ≡ fresh (quota_for setup.now) (cpus_of setup.now) seat.cpu }
        requires rings { N.kit.rings.capacity ≡ rings_for setup.now }
        ensures { HasRun setup.now seat.cpu (program_of setup.now seat.cpu) result }
    {
        let cpu = seat.cpu();
        prove!(cpu.index() < setup.cpus());
        let program = setup.program(cpu);
        for n in 0..program.len() {
            let call = Call {
                rt,
                gate,
                number: n,
            };
            self.run_operation(&call, &mut seat, program[n]);
            gate.answered(cpu, n);
        }
        seat
    }

    /// Does an operation of a program on its seat. There is room for it.
    fn run_operation<R: Wait, G: Gate>(&self, call: &Call<'_, R, G>, seat: &mut Seat<N>, op: Op)
        requires sound { (n : ℕ) × (operation_fault (homes_of (setup_of N.kit))
            (cpus_of (setup_of N.kit)) seat.old.cpu n op ≡ None) }
        requires room { room_for (cpus_of (setup_of N.kit)) op ≤ seat.old.room }
        requires ring { (home : ℕ) → home < cpus_of (setup_of N.kit)
            → post_of (homes_of (setup_of N.kit)) home op ≢ []
            → length (posted_to seat.old home) < N.kit.rings.capacity }
        ensures { HasOperated (setup_of N.kit) op seat.old seat.new }
    {
        match op {
            Op::Post(task) => seat.parts.post(task).unwrap(),
            Op::Drain => {
                self.drain_by(call, seat).unwrap();
            }
            _ => {
                self.operate(call, seat, op).unwrap();
            }
        }
    }
}
