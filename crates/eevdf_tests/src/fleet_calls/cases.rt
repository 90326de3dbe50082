//! Calls of seats, with what comes of them.

use super::Case;
use super::seat_call::Done::{Drained, Line, Posted, RingFull, SeatFull};

/// Two CPUs with a task that is runnable on CPU 0.
const ONE_RUNNABLE: &[u8] = b"version = 1\nprogram = [[], []]\n[[task]]\n";

/// Two CPUs with a task of CPU 0 that sleeps.
const ONE_ASLEEP: &[u8] = b"version = 1\nprogram = [[], []]\n[[task]]\nasleep = true\n";

/// Two CPUs with three tasks of CPU 0 that sleep.
const THREE_ASLEEP: &[u8] =
    b"version = 1\nprogram = [[], []]\n[[task]]\nasleep = true\n[[task]]\nasleep = true\n[[task]]\nasleep = true\n";

pub const CASES: [Case; 13] = [
    Case {
        name: "each answer of a running task is a line",
        workload: b"version = 2\nprogram = [[]]\n[[task]]\n[[task]]\n",
        quota: 4,
        rings: 1,
        calls: &[
            (0, "pick", Line),
            (0, "tick 3000000", Line),
            (0, "renice 0 5", Line),
            (0, "yield", Line),
            (0, "pick", SeatFull),
        ],
        report: "cpu 0\npick: picked 0\ntick 3000000: charged 0 resched\nrenice 0 5: reniced\nyield: yielded\nload 1359 floor 1500000\ntask 0 v 6085076 d 24425374 lag -4585076 running\ntask 1 v 0 d 3000000 lag 1500000\nscript = [\n\"0 pick\",\n\"0 tick 3000000\",\n\"0 renice 0 5\",\n\"0 yield\",\n]\n",
    },
    // Task 0 stands 2000000 past the virtual time when it leaves CPU 0, and task 2 is alone on CPU 1.
    Case {
        name: "a doze at home and one away from there are lines",
        workload: b"version = 1\nprogram = [[], []]\n[[task]]\n[[task]]\n[[task]]\n",
        quota: 4,
        rings: 1,
        calls: &[
            (0, "pick", Line),
            (0, "tick 3000000", Line),
            (0, "doze 0", Line),
            (1, "pull 0", Line),
            (1, "pick", Line),
            (1, "doze 2", Line),
            (1, "doze 2", Line),
            (1, "doze 2", SeatFull),
        ],
        report: "cpu 0\npick: picked 0\ntick 3000000: charged 0 resched\ndoze 0: slept -2000000\nload 1024 floor 0\ntask 1 v 0 d 3000000 lag 0\nasleep 0 lag 0 place 3000000\nasleep 2 lag 0\ncpu 1\npull 0: pulled 2\npick: picked 2\ndoze 2: slept 0\ndoze 2: not running\nload 0 floor 0\nscript = [\n\"0 pick\",\n\"0 tick 3000000\",\n\"0 doze 0\",\n\"1 pull 0\",\n\"1 pick\",\n\"1 doze 2\",\n\"1 doze 2\",\n]\n",
    },
    // A drain on two CPUs may need two lines, a pick and a pull need one.
    Case {
        name: "a seat has room for one line",
        workload: ONE_RUNNABLE,
        quota: 1,
        rings: 1,
        calls: &[
            (0, "drain", SeatFull),
            (0, "pick", Line),
            (0, "pick", SeatFull),
            (0, "pull 1", SeatFull),
            (1, "pull 0", Line),
        ],
        report: "cpu 0\npick: picked 0\nload 1024 floor 0\ntask 0 v 0 d 3000000 lag 0 running\ncpu 1\npull 0: nothing\nload 0 floor 0\nscript = [\n\"0 pick\",\n\"1 pull 0\",\n]\n",
    },
    Case {
        name: "what needs one line is done where a drain has no room",
        workload: ONE_RUNNABLE,
        quota: 3,
        rings: 1,
        calls: &[
            (0, "pick", Line),
            (0, "pick", Line),
            (0, "drain", SeatFull),
            (0, "pick", Line),
        ],
        report: "cpu 0\npick: picked 0\npick: picked 0\npick: picked 0\nload 1024 floor 0\ntask 0 v 0 d 3000000 lag 0 running\ncpu 1\nload 0 floor 0\nscript = [\n\"0 pick\",\n\"0 pick\",\n\"0 pick\",\n]\n",
    },
    Case {
        name: "a ring has room for two requests",
        workload: THREE_ASLEEP,
        quota: 1,
        rings: 2,
        calls: &[
            (1, "post 0", Posted),
            (1, "post 1", Posted),
            (1, "post 2", RingFull),
        ],
        report: "cpu 0\nload 0 floor 0\nasleep 0 lag 0\nasleep 1 lag 0\nasleep 2 lag 0\nleft 0 from 1\nleft 1 from 1\ncpu 1\nload 0 floor 0\nscript = [\n]\n",
    },
    Case {
        name: "two CPUs ask for one task",
        workload: ONE_ASLEEP,
        quota: 2,
        rings: 1,
        calls: &[
            (1, "post 0", Posted),
            (0, "post 0", Posted),
            (1, "post 0", RingFull),
            (0, "drain", Drained { taken: 2, woken: 1 }),
        ],
        report: "cpu 0\nwake 0 from 0: woken\nwake 0 from 1: awake\nload 1024 floor 0\ntask 0 v 0 d 3000000 lag 0\ncpu 1\nload 0 floor 0\nscript = [\n\"0 wake 0 from 0\",\n\"0 wake 0 from 1\",\n]\n",
    },
    Case {
        name: "a drained ring takes requests again",
        workload: THREE_ASLEEP,
        quota: 4,
        rings: 1,
        calls: &[
            (1, "post 0", Posted),
            (0, "drain", Drained { taken: 1, woken: 1 }),
            (1, "post 1", Posted),
            (0, "drain", Drained { taken: 1, woken: 1 }),
            (1, "post 2", Posted),
            (0, "drain", Drained { taken: 1, woken: 1 }),
        ],
        report: "cpu 0\nwake 0 from 1: woken\nwake 1 from 1: woken\nwake 2 from 1: woken\nload 3072 floor 0\ntask 0 v 0 d 3000000 lag 0\ntask 1 v 0 d 3000000 lag 0\ntask 2 v 0 d 3000000 lag 0\ncpu 1\nload 0 floor 0\nscript = [\n\"0 wake 0 from 1\",\n\"0 wake 1 from 1\",\n\"0 wake 2 from 1\",\n]\n",
    },
    Case {
        name: "a drain takes one request of a sender",
        workload: THREE_ASLEEP,
        quota: 2,
        rings: 3,
        calls: &[
            (1, "post 0", Posted),
            (1, "post 1", Posted),
            (1, "post 2", Posted),
            (1, "post 0", RingFull),
            (0, "drain", Drained { taken: 1, woken: 1 }),
        ],
        report: "cpu 0\nwake 0 from 1: woken\nload 1024 floor 0\ntask 0 v 0 d 3000000 lag 0\nasleep 1 lag 0\nasleep 2 lag 0\nleft 1 from 1\nleft 2 from 1\ncpu 1\nload 0 floor 0\nscript = [\n\"0 wake 0 from 1\",\n]\n",
    },
    Case {
        name: "a CPU asks itself",
        workload: b"version = 1\nprogram = [[]]\n[[task]]\nasleep = true\n[[task]]\nasleep = true\n",
        quota: 3,
        rings: 1,
        calls: &[
            (0, "post 0", Posted),
            (0, "post 1", RingFull),
            (0, "drain", Drained { taken: 1, woken: 1 }),
            (0, "drain", Drained { taken: 0, woken: 0 }),
            (0, "post 1", Posted),
            (0, "drain", Drained { taken: 1, woken: 1 }),
        ],
        report: "cpu 0\nwake 0 from 0: woken\nwake 1 from 0: woken\nload 2048 floor 0\ntask 0 v 0 d 3000000 lag 0\ntask 1 v 0 d 3000000 lag 0\nscript = [\n\"0 wake 0 from 0\",\n\"0 wake 1 from 0\",\n]\n",
    },
    Case {
        name: "a request to another CPU stays out of the own drain",
        workload: b"version = 1\nprogram = [[], []]\n[[task]]\nhome = 1\nasleep = true\n",
        quota: 2,
        rings: 1,
        calls: &[
            (0, "post 0", Posted),
            (0, "drain", Drained { taken: 0, woken: 0 }),
            (1, "drain", Drained { taken: 1, woken: 1 }),
        ],
        report: "cpu 0\nload 0 floor 0\ncpu 1\nwake 0 from 0: woken\nload 1024 floor 0\ntask 0 v 0 d 3000000 lag 0\nscript = [\n\"1 wake 0 from 0\",\n]\n",
    },
    // The sleep takes the lock of CPU 0 first.
    Case {
        name: "a task sleeps at its home wherever it runs",
        workload: b"version = 1\nprogram = [[], []]\n[[task]]\n[[task]]\n[[task]]\n",
        quota: 10,
        rings: 1,
        calls: &[
            (1, "pull 0", Line),
            (1, "pick", Line),
            (1, "tick 500000", Line),
            (1, "sleep 2", Line),
        ],
        report: "cpu 0\nload 2048 floor 0\ntask 0 v 0 d 3000000 lag 0\ntask 1 v 0 d 3000000 lag 0\nasleep 2 lag 0\ncpu 1\npull 0: pulled 2\npick: picked 2\ntick 500000: charged 2\nsleep 2: slept 0\nload 0 floor 500000\nscript = [\n\"1 pull 0\",\n\"1 pick\",\n\"1 tick 500000\",\n\"1 sleep 2\",\n]\n",
    },
    Case {
        name: "a task begins anew, and another is set to another level and ends",
        workload: b"version = 1\nprogram = [[], []]\n[[task]]\n[[task]]\nasleep = true\n",
        quota: 6,
        rings: 1,
        calls: &[
            (0, "begin 1 5 1000000", Line),
            (0, "pick", Line),
            (0, "tick 1000000", Line),
            (0, "rebase", Line),
            (0, "set 0 5 1000000", Line),
            (0, "end 0", Line),
            (0, "end 0", SeatFull),
            (1, "end 0", Line),
        ],
        report: "cpu 0\nbegin 1 5 1000000: begun\npick: picked 0\ntick 1000000: charged 0\nrebase: rebased 1000000\nset 0 5 1000000: set\nend 0: ended\nload 0 floor 0\nasleep 0 lag 0\nasleep 1 lag 0\ncpu 1\nend 0: not here\nload 0 floor 0\nscript = [\n\"0 begin 1 5 1000000\",\n\"0 pick\",\n\"0 tick 1000000\",\n\"0 rebase\",\n\"0 set 0 5 1000000\",\n\"0 end 0\",\n\"1 end 0\",\n]\n",
    },
    Case {
        name: "nothing is done",
        workload: b"version = 1\nprogram = [[]]\n[[task]]\n",
        quota: 0,
        rings: 0,
        calls: &[(0, "pick", SeatFull), (0, "post 0", RingFull)],
        report: "cpu 0\nload 1024 floor 0\ntask 0 v 0 d 3000000 lag 0\nscript = [\n]\n",
    },
];
