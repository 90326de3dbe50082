//! The CPUs of a run are all under way at the same time: in each turn of a caller, and in each operation of a program, a token goes
//! round all of them.

use super::call_turns::{CallTurns, TurnCalls};
use super::gate_call::{GateCall, Moment, Passing, PassingGate};
use super::token::Token;
use crate::fixtures::{one_task_each, picks_of_one_task_each};
use crate::kits::{endless_kit_of, kit_of};
use eevdf_fleet::{endless, run_all, run_turns};
use eevdf_ops::Op;

/// So many CPUs there are in the tests.
const CPUS: [usize; 3] = [2, 8, 64];

/// How often the token goes round.
const ROUNDS: usize = 2;

/// A round of the token in each turn, between two operations.
#[derive(Drop)]
struct RoundsOfTurns {
    token: Token,
}

impl TurnCalls for RoundsOfTurns {
    fn call_at(&self, cpu: u64, turn: usize, at: usize) -> Option<Op> {
        match at {
            0 => Some(Op::Pick),
            1 => {
                self.token.go_round(turn, cpu as usize);
                Some(Op::Yield)
            }
            _ => None,
        }
    }
}

impl RoundsOfTurns {
    fn of(cpus: usize) -> CallTurns<RoundsOfTurns> {
        let token = Token::new(cpus);
        CallTurns {
            each: RoundsOfTurns { token },
        }
    }
}

#[test]
fn turns_of_all_cpus_go_on_at_once(rt: HostRuntime) {
    for cpus in CPUS {
        let setup = one_task_each(&rt, rt.alloc(), cpus);
        let kit = kit_of(&rt, rt.alloc(), &setup, 2 * ROUNDS, 1);
        let turns = RoundsOfTurns::of(cpus);
        let _closed = run_turns(&rt, rt.alloc(), kit, ROUNDS, &turns).expect(&rt, "turns");
        assert!(rt; turns.each.token.has_gone(ROUNDS), "{cpus} CPUs");
    }
}

#[test]
fn turns_without_a_history_go_on_at_once(rt: HostRuntime) {
    for cpus in CPUS {
        let setup = one_task_each(&rt, rt.alloc(), cpus);
        let kit = endless_kit_of(&rt, rt.alloc(), &setup, 1);
        let turns = RoundsOfTurns::of(cpus);
        let _closed = endless::run_turns(&rt, rt.alloc(), kit, &turns).expect(&rt, "turns");
        assert!(rt; turns.each.token.has_gone(1), "{cpus} CPUs");
    }
}

/// A round of the token in each operation of a program, at one of its calls of the gate.
#[derive(Drop)]
struct RoundsOfOperations {
    moment: Moment,
    token: Token,
}

impl Passing for RoundsOfOperations {
    fn pass(&self, call: GateCall) {
        if call.moment == self.moment {
            self.token.go_round(call.n, call.cpu as usize);
        }
    }
}

#[test]
fn operations_of_all_cpus_go_on_at_once(rt: HostRuntime) {
    for cpus in CPUS {
        let setup = picks_of_one_task_each(&rt, rt.alloc(), cpus, ROUNDS);
        for moment in [Moment::Inside, Moment::Acted, Moment::Answered] {
            let gate = PassingGate {
                passing: RoundsOfOperations {
                    moment,
                    token: Token::new(cpus),
                },
            };
            let _closed = run_all(&rt, rt.alloc(), &setup, &gate).expect(&rt, "run");
            assert!(rt; gate.passing.token.has_gone(ROUNDS), "{cpus} CPUs");
        }
    }
}
