//! Calls of seats of a fleet that keeps no history, with what comes of them.

use super::Case;

pub const CASES: [Case; 7] = [
    Case {
        name: "each operation of a running task",
        workload: b"version = 2\nprogram = [[]]\n[[task]]\n[[task]]\n",
        rings: 1,
        calls: &[
            (0, "pick", "picked 0"),
            (0, "tick 3000000", "charged 0 resched"),
            (0, "renice 0 5", "reniced"),
            (0, "yield", "yielded"),
        ],
        report: "cpu 0\nload 1359 floor 1500000\ntask 0 v 6085076 d 24425374 lag -4585076 running\ntask 1 v 0 d 3000000 lag 1500000\n",
    },
    // The sleep takes the lock of CPU 0 first.
    Case {
        name: "a task sleeps and wakes at its home wherever it runs",
        workload: b"version = 1\nprogram = [[], []]\n[[task]]\n[[task]]\n[[task]]\n",
        rings: 1,
        calls: &[
            (1, "pull 0", "pulled 2"),
            (1, "pick", "picked 2"),
            (1, "tick 500000", "charged 2"),
            (1, "sleep 2", "slept 0"),
            (1, "sleep 2", "not running"),
            (1, "post 2", "posted"),
            (0, "drain", "1 taken, 1 woken"),
        ],
        report: "cpu 0\nload 3072 floor 0\ntask 0 v 0 d 3000000 lag 0\ntask 1 v 0 d 3000000 lag 0\ntask 2 v 0 d 3000000 lag 0\ncpu 1\nload 0 floor 500000\n",
    },
    // Task 0 stands 2000000 past the virtual time when it leaves CPU 0, and task 2 is alone on CPU 1.
    Case {
        name: "a task that dozes at its home keeps its place, and away from there it sleeps",
        workload: b"version = 1\nprogram = [[], []]\n[[task]]\n[[task]]\n[[task]]\n",
        rings: 1,
        calls: &[
            (0, "pick", "picked 0"),
            (0, "tick 3000000", "charged 0 resched"),
            (0, "doze 0", "slept -2000000"),
            (1, "pull 0", "pulled 2"),
            (1, "pick", "picked 2"),
            (1, "tick 500000", "charged 2"),
            (1, "doze 2", "slept 0"),
            (1, "doze 2", "not running"),
        ],
        report: "cpu 0\nload 1024 floor 0\ntask 1 v 0 d 3000000 lag 0\nasleep 0 lag 0 place 3000000\nasleep 2 lag 0\ncpu 1\nload 0 floor 500000\n",
    },
    Case {
        name: "a ring that was full takes requests again when it was drained",
        workload: b"version = 1\nprogram = [[], []]\n[[task]]\nasleep = true\n[[task]]\nasleep = true\n[[task]]\nasleep = true\n",
        rings: 1,
        calls: &[
            (1, "post 0", "posted"),
            (1, "post 1", "ring full at task 1"),
            (0, "drain", "1 taken, 1 woken"),
            (1, "post 0", "posted"),
            (0, "drain", "1 taken, 0 woken"),
            (1, "post 2", "posted"),
        ],
        report: "cpu 0\nload 1024 floor 0\ntask 0 v 0 d 3000000 lag 0\nasleep 1 lag 0\nasleep 2 lag 0\nleft 2 from 1\ncpu 1\nload 0 floor 0\n",
    },
    Case {
        name: "two CPUs ask for one task",
        workload: b"version = 1\nprogram = [[], []]\n[[task]]\nasleep = true\n",
        rings: 1,
        calls: &[
            (1, "post 0", "posted"),
            (0, "post 0", "posted"),
            (0, "drain", "2 taken, 1 woken"),
        ],
        report: "cpu 0\nload 1024 floor 0\ntask 0 v 0 d 3000000 lag 0\ncpu 1\nload 0 floor 0\n",
    },
    Case {
        name: "rings without room take no request",
        workload: b"version = 1\nprogram = [[]]\n[[task]]\n",
        rings: 0,
        calls: &[
            (0, "post 0", "ring full at task 0"),
            (0, "drain", "0 taken, 0 woken"),
        ],
        report: "cpu 0\nload 1024 floor 0\ntask 0 v 0 d 3000000 lag 0\n",
    },
    Case {
        name: "what the setup hasn't is named",
        workload: b"version = 1\nprogram = [[]]\n[[task]]\n",
        rings: 1,
        calls: &[
            (0, "sleep 1", "no task 1"),
            (0, "renice 1 5", "no task 1"),
            (0, "post 1", "no task 1"),
            (0, "pull 1", "no cpu 1"),
            (0, "pull 0", "own cpu"),
        ],
        report: "cpu 0\nload 1024 floor 0\ntask 0 v 0 d 3000000 lag 0\n",
    },
];
