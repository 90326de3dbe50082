//! The workloads, one of each command, and the errors by which an end fails.

use eevdf_bench::{Form, Kind};
use std::io::ErrorKind;

/// A workload, and what the program prints for it.
#[derive(Clone, Copy)]
pub struct Row<'a> {
    pub name: &'static str,
    pub kind: Kind,
    pub form: Form,
    pub workload: &'a [u8],
    pub printed: &'static str,
}

pub const ROWS: [Row<'static>; 3] = [
    Row {
        name: "a script",
        kind: Kind::Solo,
        form: Form::PLAIN,
        workload: b"version = 1\nprogram = [[]]\nscript = [\"0 pick\", \"0 tick 3000000\", \"0 pick\"]\n[[task]]\n[[task]]\n",
        printed: "cpu 0\npick: picked 0\ntick 3000000: charged 0 resched\npick: picked 1\nload 2048 floor 1500000\ntask 0 v 3000000 d 6000000 lag -1500000\ntask 1 v 0 d 3000000 lag 1500000 running\n",
    },
    Row {
        name: "an order, with its history",
        kind: Kind::Replay,
        form: Form::WITH_HISTORY,
        workload: b"version = 1\norder = [0, 0, 1, 0, 0]\nprogram = [[\"pick\"], [\"post 1\"]]\n[[task]]\n[[task]]\nasleep = true\n",
        printed: "cpu 0\npick: picked 0\nload 1024 floor 0\ntask 0 v 0 d 3000000 lag 0 running\nasleep 1 lag 0\nleft 1 from 1\ncpu 1\nload 0 floor 0\nscript = [\n\"0 pick\",\n]\n",
    },
    Row {
        name: "two programs that share nothing",
        kind: Kind::Run,
        form: Form::PLAIN,
        workload: b"version = 1\nprogram = [[\"pick\", \"tick 700000\"], [\"pick\", \"sleep 1\"]]\n[[task]]\n[[task]]\nhome = 1\n",
        printed: "cpu 0\npick: picked 0\ntick 700000: charged 0\nload 1024 floor 700000\ntask 0 v 700000 d 3000000 lag 0 running\ncpu 1\npick: picked 1\nsleep 1: slept 0\nload 0 floor 0\nasleep 1 lag 0\n",
    },
];

/// Errors that a program might try again after, or take for another fault than the device's.
pub const KINDS: [ErrorKind; 6] = [
    ErrorKind::Interrupted,
    ErrorKind::WouldBlock,
    ErrorKind::TimedOut,
    ErrorKind::UnexpectedEof,
    ErrorKind::WriteZero,
    ErrorKind::OutOfMemory,
];
