//! Small workloads whose callers are played in every order in which they can do their steps: each history on the way
//! is that of one thread that does the deeds one after the other, and at the end the queues are that thread's too.

ghost use Rattle.std.specs.Prelude.{◌≡◌, true};
ghost use Rattle.std.specs.List.{list_all};
ghost use Rattle.eevdf_ops.specs.Setup.{allows};

use crate::one_thread_again::deeds;
use crate::same_end::end_alike;
use eevdf_ops::one_thread::solo;
use eevdf_ops::{Deed, Line, Outcome, Setup};
use eevdf_steps::{Player, play};
use eevdf_workload::read_workload;
use std::alloc::Global;
use std::process::Abort;

/// No workload here has more steps.
const MOST_STEPS: usize = 30;

/// A workload, and how many orders of its callers are lawful and complete.
#[derive(Clone, Copy)]
struct Case {
    name: &'static str,
    workload: &'static [u8],
    orders: usize,
}

const CASES: [Case; 24] = [
    // The one step of caller 1 stands anywhere among the 7 of caller 0.
    Case {
        name: "a drain may come before or after another CPU's post",
        workload: b"version = 1\nprogram = [[\"post 0\", \"drain\"], [\"post 0\"]]\n[[task]]\nasleep = true\n",
        orders: 8,
    },
    Case {
        name: "one pick",
        workload: b"version = 1\nprogram = [[\"pick\"]]\n[[task]]\n",
        orders: 1,
    },
    // 8! / (4! 4!)
    Case {
        name: "two CPUs that share nothing",
        workload: b"version = 1\nprogram = [[\"pick\"], [\"pick\"]]\n[[task]]\n[[task]]\nhome = 1\n",
        orders: 70,
    },
    // Each holds the lock of CPU 0 from its first step to its last.
    Case {
        name: "a pull from a queue of one task",
        workload: b"version = 1\nprogram = [[\"pick\"], [\"pull 0\"]]\n[[task]]\n",
        orders: 2,
    },
    // 9! / (4! 5!)
    Case {
        name: "a post to another CPU that nobody drains",
        workload: b"version = 1\nprogram = [[\"pick\"], [\"pick\", \"post 0\"]]\n[[task]]\n[[task]]\nhome = 1\n",
        orders: 126,
    },
    Case {
        name: "a CPU that drains its own post",
        workload: b"version = 1\nprogram = [[\"post 0\", \"drain\"]]\n[[task]]\nasleep = true\n",
        orders: 1,
    },
    // The post stands anywhere among the 6 steps of the drain.
    Case {
        name: "a post to a CPU that drains",
        workload: b"version = 1\nprogram = [[\"drain\"], [\"post 0\"]]\n[[task]]\nasleep = true\n",
        orders: 7,
    },
    Case {
        name: "two tasks that take turns",
        workload: b"version = 1\nprogram = [[\"pick\", \"tick 3000000\", \"pick\"]]\n[[task]]\n[[task]]\n",
        orders: 1,
    },
    // Each holds the lock of CPU 0 from its first step to its last.
    Case {
        name: "a pull that moves a task",
        workload: b"version = 1\nprogram = [[\"pick\"], [\"pull 0\"]]\n[[task]]\n[[task]]\n[[task]]\n",
        orders: 2,
    },
    // Either of the two is first at the lock of CPU 2. The other's first step stands in one of the 7 gaps before
    // its second, the first one's last step in one of the 7 after its sixth, and where both stand in the one gap
    // between, there are two orders of them: 2 (49 + 1).
    Case {
        name: "two pulls that meet at their second lock",
        workload: b"version = 1\nprogram = [[\"pull 2\"], [\"pull 2\"], []]\n[[task]]\nhome = 2\n[[task]]\nhome = 2\n[[task]]\nhome = 2\n",
        orders: 100,
    },
    // The pick of CPU 1 goes among the one step before the pull has its second lock, the 6 steps between the pull
    // and the sleep that don't hold it, or the last step: 5 + 10! / (4! 6!) + 5.
    Case {
        name: "a task is pulled, runs, and falls asleep at its home",
        workload: b"version = 1\nprogram = [[\"pull 1\", \"pick\", \"sleep 2\"], [\"pick\"]]\n[[task]]\nhome = 1\n[[task]]\nhome = 1\n[[task]]\nhome = 1\n",
        orders: 220,
    },
    // The same steps as of the sleep.
    Case {
        name: "a task is pulled, runs, and dozes, which is a sleep away from its home",
        workload: b"version = 4\nprogram = [[\"pull 1\", \"pick\", \"doze 2\"], [\"pick\"]]\n[[task]]\nhome = 1\n[[task]]\nhome = 1\n[[task]]\nhome = 1\n",
        orders: 220,
    },
    // Each operation holds the lock of CPU 0 from its first step to its last: the pull comes before, between or after.
    Case {
        name: "the running task dozes at its home beside a pull",
        workload: b"version = 4\nprogram = [[\"pick\", \"doze 0\"], [\"pull 0\"]]\n[[task]]\n[[task]]\n[[task]]\n",
        orders: 3,
    },
    // 14! / (12! 2!)
    Case {
        name: "two drains of two posts",
        workload: b"version = 1\nprogram = [[\"drain\", \"drain\"], [\"post 1\", \"post 0\"]]\n[[task]]\nasleep = true\n[[task]]\nasleep = true\n",
        orders: 91,
    },
    // The pull before or after the pick, and the post anywhere among those 11 steps: 2 * 12.
    Case {
        name: "a post while its task may be in a hand",
        workload: b"version = 1\nprogram = [[\"pick\"], [\"pull 0\"], [\"post 2\"]]\n[[task]]\n[[task]]\n[[task]]\n",
        orders: 24,
    },
    // Each operation holds the lock of CPU 0 from its first step to its last: the pull comes before, between or after.
    Case {
        name: "the running task gets another level beside a pull",
        workload: b"version = 2\nprogram = [[\"pick\", \"renice 0 5\"], [\"pull 0\"]]\n[[task]]\n[[task]]\n[[task]]\n",
        orders: 3,
    },
    // 12! / (8! 4!)
    Case {
        name: "a waiting task gets another level beside another CPU's pick",
        workload: b"version = 2\nprogram = [[\"pick\", \"renice 1 -5\"], [\"pick\"]]\n[[task]]\n[[task]]\n[[task]]\nhome = 1\n",
        orders: 495,
    },
    // Each holds the lock of CPU 0 from its first step to its last.
    Case {
        name: "a task gets another level before or after it is pulled",
        workload: b"version = 2\nprogram = [[\"renice 2 5\"], [\"pull 0\"]]\n[[task]]\n[[task]]\n[[task]]\n",
        orders: 2,
    },
    // The pick comes before the pull, or after it and then anywhere among the 4 steps of the other: 1 + 8! / (4! 4!).
    Case {
        name: "a task gets another level where it was pulled to",
        workload: b"version = 2\nprogram = [[\"pick\"], [\"pull 0\", \"renice 2 5\"]]\n[[task]]\n[[task]]\n[[task]]\n",
        orders: 71,
    },
    // Each operation holds the lock of CPU 0 from its first step to its last: the begin comes before, between or after.
    Case {
        name: "a task ends where it was pulled to, and begins anew at its home",
        workload: b"version = 3\nprogram = [[\"begin 2 5 6000000\"], [\"pull 0\", \"end 2\"]]\n[[task]]\n[[task]]\n[[task]]\n",
        orders: 3,
    },
    // Each operation holds the lock of CPU 0 from its first step to its last: the pull comes before, between or after.
    Case {
        name: "the running task ends at its home beside a pull",
        workload: b"version = 3\nprogram = [[\"pick\", \"end 0\"], [\"pull 0\"]]\n[[task]]\n[[task]]\n[[task]]\n",
        orders: 3,
    },
    // The post stands anywhere among the 4 steps of the set and the 6 of the drain.
    Case {
        name: "a task is set anew in its sleep beside a post of its wake",
        workload: b"version = 3\nprogram = [[\"set 0 5 6000000\", \"drain\"], [\"post 0\"]]\n[[task]]\nasleep = true\n",
        orders: 11,
    },
    // 8! / (4! 4!)
    Case {
        name: "a rebase beside another CPU's pick",
        workload: b"version = 3\nprogram = [[\"rebase\"], [\"pick\"]]\n[[task]]\nstart = 5000000\n[[task]]\nhome = 1\n",
        orders: 70,
    },
    // Each holds the lock of CPU 0 from its first step to its last.
    Case {
        name: "a pull before or after the rebase of its source",
        workload: b"version = 3\nprogram = [[\"rebase\"], [\"pull 0\"]]\n[[task]]\nstart = 5000000\n[[task]]\nstart = 5000000\n[[task]]\nstart = 5000000\n",
        orders: 2,
    },
];

#[test]
fn every_order_comes_to_what_one_thread_does(rt: HostRuntime) {
    for case in &CASES {
        check_case(&rt, rt.alloc(), case);
    }
}

/// Plays each order of a case, and counts them.
fn check_case(rt: &impl Abort, alloc: Global, case: &Case) {
    let workload = read_workload(alloc, case.workload).expect(rt, "workload");
    check_orders(rt, alloc, workload.setup(), case)
}

fn check_orders(rt: &impl Abort, alloc: Global, setup: &Setup, case: &Case) {
    let mut order = Vec::new(alloc);
    complete(rt, alloc, setup, &mut order);
    let mut has_next = true;
    for before in 0..case.orders {
        assert!(rt; has_next, "{}: {before} orders", case.name);
        check_order(rt, alloc, setup, &order, case.name);
        has_next = advance(rt, alloc, setup, &mut order);
    }
    assert!(rt; !has_next, "{}: more orders", case.name);
}

/// Makes a beginning of an order the first, in the order of lists, of the lawful complete orders that begin so.
fn complete(rt: &impl Abort, alloc: Global, setup: &Setup, order: &mut Vec<usize>) {
    let mut player = player_after(rt, alloc, setup, order);
    go_on(rt, &mut player, order);
}

/// A player whose callers have done the steps of a beginning of an order.
fn player_after(rt: &impl Abort, alloc: Global, setup: &Setup, beginning: &[usize]) -> Player {
    let mut player = Player::open(alloc, setup).expect(rt, "memory");
    for caller in beginning {
        player.step(*caller).expect(rt, "step");
    }
    player
}

/// Does the steps that are left, each of the first caller that may step, and adds these callers to an order.
fn go_on(rt: &impl Abort, player: &mut Player, order: &mut Vec<usize>) {
    for _step in 0..=MOST_STEPS {
        let Some(caller) = player.ready() else {
            return;
        };
        player.step(caller).expect(rt, "ready");
        order.push(caller).expect(rt, "memory");
    }
    panic!(rt; "too many steps")
}

/// Makes an order the next, in the order of lists, of the lawful complete orders, and says whether there is one.
fn advance(rt: &impl Abort, alloc: Global, setup: &Setup, order: &mut Vec<usize>) -> bool {
    let Some((place, caller)) = parting(rt, alloc, setup, order) else {
        return false;
    };
    order.truncate(place);
    order.push(caller).expect(rt, "memory");
    complete(rt, alloc, setup, order);
    true
}

/// Where the next order parts from this one, which is as late as it can, and the caller that steps there.
fn parting(
    rt: &impl Abort,
    alloc: Global,
    setup: &Setup,
    order: &[usize],
) -> Option<(usize, usize)> {
    for place in (0..order.len()).rev() {
        if let Some(caller) = later_caller(rt, alloc, setup, &order[..place], order[place]) {
            return Some((place, caller));
        }
    }
    None
}

/// The first caller, of those of a greater number than this one, that may step after the steps of a beginning.
fn later_caller(
    rt: &impl Abort,
    alloc: Global,
    setup: &Setup,
    beginning: &[usize],
    caller: usize,
) -> Option<usize> {
    for later in 0..setup.cpus() {
        if later > caller && may_follow(rt, alloc, setup, beginning, later) {
            return Some(later);
        }
    }
    None
}

/// Whether a caller may step after the steps of a beginning.
fn may_follow(
    rt: &impl Abort,
    alloc: Global,
    setup: &Setup,
    beginning: &[usize],
    caller: usize,
) -> bool {
    let mut player = player_after(rt, alloc, setup, beginning);
    player.step(caller).is_ok()
}

/// Plays an order, and compares its history each time it grows, and what it comes to, with one thread.
fn check_order(rt: &impl Abort, alloc: Global, setup: &Setup, order: &[usize], name: &str) {
    check_histories(rt, alloc, setup, order, name);
    let outcome = play(alloc, setup, order).expect(rt, "outcome");
    check_end(rt, alloc, setup, &outcome, name)
}

fn check_histories(rt: &impl Abort, alloc: Global, setup: &Setup, order: &[usize], name: &str) {
    let mut player = Player::open(alloc, setup).expect(rt, "memory");
    for caller in order {
        check_step(rt, alloc, setup, &mut player, *caller, name);
    }
}

/// Does a step of a caller, and compares the history where it grows.
fn check_step(
    rt: &impl Abort,
    alloc: Global,
    setup: &Setup,
    player: &mut Player,
    caller: usize,
    name: &str,
) {
    let before = player.history().len();
    player.step(caller).expect(rt, "step");
    if player.history().len() > before {
        check_history(rt, alloc, setup, player.history(), name);
    }
}

fn check_history(rt: &impl Abort, alloc: Global, setup: &Setup, history: &[Line], name: &str) {
    let alone = one_thread(rt, alloc, setup, history);
    assert!(rt; history == alone.history(), "{name}: a history");
}

fn check_end(rt: &impl Abort, alloc: Global, setup: &Setup, outcome: &Outcome, name: &str) {
    let alone = one_thread(rt, alloc, setup, outcome.history());
    let ends = outcome.history() == alone.history()
        && end_alike(outcome, &alone, setup.tasks() as u64);
    assert!(rt; ends, "{name}: the end");
}

/// What one thread comes to that does the deeds of a history.
fn one_thread(rt: &impl Abort, alloc: Global, setup: &Setup, history: &[Line]) -> Outcome {
    let deeds = deeds(alloc, history).expect(rt, "memory");
    assert!(rt; allows_all(setup, &deeds), "a deed that isn't allowed");
    solo(alloc, setup, &deeds).expect(rt, "memory")
}

fn allows_all(setup: &Setup, deeds: &[Deed]) -> bool
    ensures { result ≡ list_all (allows setup.now) deeds.now }
{
    deeds.iter().all(|deed| setup.allows(deed))
}
