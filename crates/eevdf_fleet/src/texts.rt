//! How the answers and the faults of a fleet print.

ghost use Rattle.std.specs.Prelude.{Some};
ghost use Rattle.eevdf_fleet.specs.Texts.{drained_text, ring_full_text, run_fault_text};
ghost use Rattle.eevdf_fleet.specs.Texts.{operated_text, refused_text, seat_full_text};

use crate::drains::Drained;
use crate::fleet::SeatFull;
use crate::operated::{Operated, Refused};
use crate::rings::RingFull;
use crate::run_fault::RunFault;
use std::error::Error;
use std::fmt;

impl fmt::Display for SeatFull {
    ghost output = { λ _. Some seat_full_text };

    fn fmt<W: fmt::Write>(&self, f: &mut fmt::Formatter<W>) -> fmt::Result {
        f.write_str("seat full")
    }
}

impl Error for SeatFull {}

/// The words `ring full at task` with the number of the task whose request comes back.
impl fmt::Display for RingFull {
    ghost output = { λ full. Some (ring_full_text full) };

    fn fmt<W: fmt::Write>(&self, f: &mut fmt::Formatter<W>) -> fmt::Result {
        write!(f, "ring full at task {}", self.task)
    }
}

impl Error for RingFull {}

/// Both counts, as `3 taken, 2 woken`.
impl fmt::Display for Drained {
    ghost output = { λ drained. Some (drained_text drained) };

    fn fmt<W: fmt::Write>(&self, f: &mut fmt::Formatter<W>) -> fmt::Result {
        write!(f, "{} taken, {} woken", self.taken, self.woken)
    }
}

/// The answer, `posted`, or the counts of the drain.
impl fmt::Display for Operated {
    ghost output = { λ operated. Some (operated_text operated) };

    fn fmt<W: fmt::Write>(&self, f: &mut fmt::Formatter<W>) -> fmt::Result {
        match self {
            Operated::Answer(answer) => write!(f, "{answer}"),
            Operated::Posted => f.write_str("posted"),
            Operated::Drained(drained) => write!(f, "{drained}"),
        }
    }
}

/// Why an operation was refused, with the number that it named, as `no task 3`.
impl fmt::Display for Refused {
    ghost output = { λ refused. Some (refused_text refused) };

    fn fmt<W: fmt::Write>(&self, f: &mut fmt::Formatter<W>) -> fmt::Result {
        match self {
            Refused::NoTask(task) => write!(f, "no task {task}"),
            Refused::NoCpu(cpu) => write!(f, "no cpu {cpu}"),
            Refused::OwnCpu => f.write_str("own cpu"),
            Refused::OtherHome(task) => write!(f, "other home of task {task}"),
            Refused::SeatFull => f.write_str("seat full"),
            Refused::RingFull(full) => write!(f, "{full}"),
        }
    }
}

impl Error for Refused {}

/// What was refused: `memory` or `thread`.
impl fmt::Display for RunFault {
    ghost output = { λ fault. Some (run_fault_text fault) };

    fn fmt<W: fmt::Write>(&self, f: &mut fmt::Formatter<W>) -> fmt::Result {
        match self {
            RunFault::Memory => f.write_str("memory"),
            RunFault::Start => f.write_str("thread"),
        }
    }
}

impl Error for RunFault {}
