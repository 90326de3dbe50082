//! How a play ends.

ghost use Rattle.std.specs.Prelude.{◌≡◌};
ghost use Rattle.eevdf_phases.specs.Told.{status_of};
ghost use Rattle.eevdf_phases.specs.declared.ending.Ending.TheVariants.{Stopped};

use eevdf_bench::{Workload, tell};
use eevdf_closed_loop::{ClosedLoop, Stop};

/// How a play has ended.
#[derive(Clone, Copy, PartialEq, Eq, Debug)]
pub(crate) enum Ending {
    /// There are more deeds than a script has.
    TooManyDeeds,
    /// The script would be longer than a workload is.
    TooLong,
    /// The machine is driven no further.
    Stopped(Stop),
}

impl Ending {
    /// How the play of a machine has ended that has no further deed.
    pub fn of(machine: &ClosedLoop) -> Ending {
        Ending::Stopped(machine.stop.unwrap_or(Stop::Ended))
    }

    /// Says how the play of a machine has ended, and gives the status: what went wrong, or, where its time is over, who still waits.
    pub fn tell_of(self, errors: &impl Print, machine: &ClosedLoop) -> u8
        ensures { result ≡ status_of self }
    {
        if let Ending::Stopped(Stop::Ended) = self {
            tell_suspended(errors, machine);
        }
        self.tell(errors)
    }

    /// Says how a play has ended, where not as it should, and gives the status.
    pub fn tell(self, errors: &impl Print) -> u8
        ensures { result ≡ status_of self }
    {
        match self {
            Ending::TooManyDeeds => {
                let most = Workload::MOST_DEEDS;
                let _ = println!(errors;
                    "fault: script of more than {most} deeds; these are the first"
                );
            }
            Ending::TooLong => {
                let most = Workload::MOST_BYTES;
                let _ = println!(errors;
                    "fault: script longer than {most} bytes; these are the first deeds"
                );
            }
            Ending::Stopped(stop) => return tell_stop(errors, stop),
        }
        1
    }
}

/// Says why a machine is driven no further, where its time isn't over, and gives the status.
fn tell_stop(errors: &impl Print, stop: Stop) -> u8
    ensures { result ≡ status_of (Stopped stop) }
{
    match stop {
        Stop::Ended => return 0,
        Stop::Range => tell(errors, b"fault: a virtual time leaves its range there\n"),
        Stop::Endless(task) => {
            let _ = println!(errors;
                "fault: task {task} goes through phases without end that take no time"
            );
        }
        Stop::Stuck => tell(errors, b"fault: nothing happens any more\n"),
        Stop::Refused(deed) => {
            let _ = println!(errors; "fault: not allowed: {deed}");
        }
        Stop::Unexpected(line) => {
            let _ = println!(errors; "fault: not expected: {line}");
        }
        Stop::OtherSetup => tell(errors, b"fault: the setup isn't that of the workload\n"),
    }
    1
}

/// Says of each name whose tasks wait to be resumed how many of them do.
fn tell_suspended(errors: &impl Print, machine: &ClosedLoop) {
    for (place, group) in machine.plan().groups.iter().enumerate() {
        let name = &group.name;
        match machine.suspended(place) {
            None | Some(0) => {}
            Some(1) => {
                let _ = println!(errors; "{name}: 1 task waits to be resumed at the end");
            }
            Some(number) => {
                let _ = println!(errors; "{name}: {number} tasks wait to be resumed at the end");
            }
        }
    }
}
