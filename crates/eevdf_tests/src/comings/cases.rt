//! Calls by which tasks come and go, with what comes of them. The values are those of docs/model.md's rules: level 5 weighs 335.

use super::{Case, Stands};
use crate::stand::Stand;
use crate::stand::Stand::{Asleep, Elsewhere, Runnable};

/// A task as the setup gives it, runnable and asleep.
const WAITS: Stand = Runnable(0, 3_000_000, 0, 3_000_000);

const SLEEPS: Stand = Asleep(0, 0, 3_000_000);

/// A queue in which nothing has been.
const NOBODY: Stands = Stands {
    time: 0,
    running: None,
    tasks: [Elsewhere; 3],
};

pub const CASES: [Case; 9] = [
    // A slice of 1000000 ns charges 3056716 to level 5.
    Case {
        name: "a task that sleeps begins anew, and is woken by a drain",
        calls: &[
            (0, "begin 0 5 1000000", "awake"),
            (0, "begin 2 5 1000000", "begun"),
            (1, "post 2", "posted"),
            (0, "drain", "1 taken, 1 woken"),
            (0, "begin 2 0 1000000", "awake"),
        ],
        queues: [
            Stands {
                time: 0,
                running: None,
                tasks: [WAITS, WAITS, Runnable(0, 3_056_716, 5, 1_000_000)],
            },
            NOBODY,
        ],
    },
    Case {
        name: "a task that begins anew loses its lag",
        calls: &[
            (0, "pick", "picked 0"),
            (0, "tick 1000000", "charged 0"),
            (0, "sleep 0", "slept -500000"),
            (0, "begin 0 5 1000000", "begun"),
        ],
        queues: [
            Stands {
                time: 0,
                running: None,
                tasks: [Asleep(0, 5, 1_000_000), WAITS, SLEEPS],
            },
            NOBODY,
        ],
    },
    // Task 1 has the lag 500000 when it ends, and task 0 is then alone at 1000000.
    Case {
        name: "a task ends where it waits and where it runs",
        calls: &[
            (0, "pick", "picked 0"),
            (0, "tick 1000000", "charged 0"),
            (0, "end 1", "ended"),
            (0, "end 1", "not here"),
            (0, "end 0", "ended"),
            (0, "pick", "idle"),
        ],
        queues: [
            Stands {
                time: 1_000_000,
                running: None,
                tasks: [SLEEPS; 3],
            },
            NOBODY,
        ],
    },
    // Of two tasks of one deadline task 1 is pulled; it is alone on CPU 1, and starts at that CPU's time.
    Case {
        name: "a task ends away from its home",
        calls: &[
            (1, "pull 0", "pulled 1"),
            (0, "end 1", "not here"),
            (0, "begin 1 5 1000000", "awake"),
            (1, "pick", "picked 1"),
            (1, "tick 1000000", "charged 1"),
            (1, "end 1", "ended"),
            (1, "post 1", "posted"),
            (0, "drain", "1 taken, 1 woken"),
            (1, "pull 0", "pulled 1"),
            (1, "end 1", "ended"),
        ],
        queues: [
            Stands {
                time: 0,
                running: None,
                tasks: [WAITS, SLEEPS, SLEEPS],
            },
            Stands {
                time: 1_000_000,
                running: None,
                tasks: [Elsewhere; 3],
            },
        ],
    },
    // The lag -500000 of level 0 is -1528359 of level 5, rounded down, of which two slices of 1000000 ns charge 6113432.
    Case {
        name: "a sleeping task is set to another level and slice",
        calls: &[
            (0, "pick", "picked 0"),
            (0, "tick 1000000", "charged 0"),
            (0, "sleep 0", "slept -500000"),
            (0, "set 0 5 1000000", "set"),
            (1, "set 0 0 3000000", "not here"),
        ],
        queues: [
            Stands {
                time: 0,
                running: None,
                tasks: [Asleep(-1_528_359, 5, 1_000_000), WAITS, SLEEPS],
            },
            NOBODY,
        ],
    },
    // Two slices of 100000 ns charge 611343 to level 5.
    Case {
        name: "the lag of a sleeping task is cut to its new limit",
        calls: &[
            (0, "pick", "picked 0"),
            (0, "tick 1000000", "charged 0"),
            (0, "sleep 0", "slept -500000"),
            (0, "set 0 5 100000", "set"),
        ],
        queues: [
            Stands {
                time: 0,
                running: None,
                tasks: [Asleep(-611_343, 5, 100_000), WAITS, SLEEPS],
            },
            NOBODY,
        ],
    },
    // It joins again at 6085076, as the example of docs/model.md tells, and its old slice of 3000000 ns charges 9170149.
    Case {
        name: "a running task is set to another level and slice",
        calls: &[
            (0, "pick", "picked 0"),
            (0, "tick 3000000", "charged 0 resched"),
            (1, "set 0 5 1000000", "not here"),
            (0, "set 0 5 1000000", "set"),
        ],
        queues: [
            Stands {
                time: 1_500_000,
                running: Some(0),
                tasks: [Runnable(6_085_076, 15_255_225, 5, 1_000_000), WAITS, SLEEPS],
            },
            NOBODY,
        ],
    },
    Case {
        name: "a rebase lowers the virtual times of its CPU",
        calls: &[
            (0, "pick", "picked 0"),
            (0, "tick 3000000", "charged 0 resched"),
            (1, "rebase", "rebased 0"),
            (0, "rebase", "rebased 1500000"),
            (0, "pick", "picked 1"),
        ],
        queues: [
            Stands {
                time: 0,
                running: Some(1),
                tasks: [
                    Runnable(1_500_000, 4_500_000, 0, 3_000_000),
                    Runnable(-1_500_000, 1_500_000, 0, 3_000_000),
                    SLEEPS,
                ],
            },
            NOBODY,
        ],
    },
    // Task 2 has its home at CPU 0, and sleeps there.
    Case {
        name: "what the setup hasn't is named, and nothing changes",
        calls: &[
            (0, "sleep 3", "no task 3"),
            (0, "renice 3 5", "no task 3"),
            (0, "post 3", "no task 3"),
            (0, "end 3", "no task 3"),
            (0, "set 3 5 1000000", "no task 3"),
            (0, "begin 3 5 1000000", "no task 3"),
            (1, "begin 2 5 1000000", "other home of task 2"),
            (0, "pull 2", "no cpu 2"),
            (0, "pull 0", "own cpu"),
        ],
        queues: [
            Stands {
                time: 0,
                running: None,
                tasks: [WAITS, WAITS, SLEEPS],
            },
            NOBODY,
        ],
    },
];
