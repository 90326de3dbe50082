//! How micro-steps, places and faults print.

ghost use Rattle.std.specs.Prelude.{◌≡◌, Some};
ghost use Rattle.eevdf_steps.specs.Texts.{micro_text, named, place_text, play_fault_text};
ghost use Rattle.eevdf_steps.specs.Texts.{step_fault_text};

use crate::micro::Micro;
use crate::place::Place;
use crate::play_fault::PlayFault;
use crate::played_order::MOST_PLACES;
use crate::step_fault::StepFault;
use std::error::Error;
use std::fmt;

/// The name of the step, with the number that it has, as `acquire 3`.
impl fmt::Display for Micro {
    ghost output = { λ micro. Some (micro_text micro) };

    fn fmt<W: fmt::Write>(&self, f: &mut fmt::Formatter<W>) -> fmt::Result {
        let (name, number) = name_of(*self);
        match number {
            None => f.write_str(name),
            Some(number) => write!(f, "{name} {number}"),
        }
    }
}

/// The name of a step, and the number that it has, if it has one.
fn name_of(micro: Micro) -> (&'static str, Option<usize>)
    ensures { named result.0.now result.1 ≡ micro_text micro }
{
    match micro {
        Micro::Acquire(cpu) => ("acquire", Some(cpu.index())),
        Micro::Act => ("act", None),
        Micro::Detach => ("detach", None),
        Micro::Attach => ("attach", None),
        Micro::Commit => ("commit", None),
        Micro::Take(sender) => ("take", Some(sender.index())),
        Micro::Settle(sender) => ("settle", Some(sender.index())),
        Micro::Release(cpu) => ("release", Some(cpu.index())),
        Micro::Post(task) => ("post", Some(task.index())),
    }
}

/// Where the task stands, as `runnable on 3`.
impl fmt::Display for Place {
    ghost output = { λ place. Some (place_text place) };

    fn fmt<W: fmt::Write>(&self, f: &mut fmt::Formatter<W>) -> fmt::Result {
        match self {
            Place::Runnable(cpu) => write!(f, "runnable on {cpu}"),
            Place::Asleep(cpu) => write!(f, "asleep on {cpu}"),
            Place::InHand(caller) => write!(f, "in hand of {caller}"),
        }
    }
}

/// What refuses the step, as `blocked on 3 by 1`: the CPU of the lock, and the caller that holds it.
impl fmt::Display for StepFault {
    ghost output = { λ fault. Some (step_fault_text fault) };

    fn fmt<W: fmt::Write>(&self, f: &mut fmt::Formatter<W>) -> fmt::Result {
        match self {
            StepFault::NoCaller => f.write_str("no caller"),
            StepFault::Done => f.write_str("done"),
            StepFault::Blocked { cpu, holder } => write!(f, "blocked on {cpu} by {holder}"),
        }
    }
}

impl Error for StepFault {}

/// What is wrong with the order, and where, as `order at 7: done`.
impl fmt::Display for PlayFault {
    ghost output = { λ fault. Some (play_fault_text fault) };

    fn fmt<W: fmt::Write>(&self, f: &mut fmt::Formatter<W>) -> fmt::Result {
        match self {
            PlayFault::TooLong => write!(f, "order longer than {MOST_PLACES}"),
            PlayFault::Memory => f.write_str("memory"),
            PlayFault::NoCaller { at } => write!(f, "order at {at}: no caller"),
            PlayFault::Done { at } => write!(f, "order at {at}: done"),
            PlayFault::Blocked { at, cpu } => write!(f, "order at {at}: blocked on {cpu}"),
            PlayFault::Short { caller } => write!(f, "order short at {caller}"),
        }
    }
}

impl Error for PlayFault {}
