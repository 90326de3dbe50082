ghost use Rattle.std.specs.Prelude.{◌≡◌};

use crate::parcel::Parcel;
use std::error::Error;
use std::fmt;

/// Why a queue doesn't take a task.
#[derive(Clone, Copy, PartialEq, Eq, Debug)]
pub enum Refusal {
    /// The task is here already, runnable or asleep.
    Present,
    /// The virtual runtime or the deadline would be out of range.
    Range,
}

/// A parcel that a queue didn't take, with the reason. The queue is as it was.
#[derive(Debug)]
pub struct Refused {
    pub parcel: Parcel,
    pub reason: Refusal,
}

impl Refusal {
    /// What is answered with a parcel that isn't taken for this reason.
    pub(crate) fn of(self, parcel: Parcel) -> Refused
        ensures { result ≡ record { parcel = parcel; reason = self } }
    {
        Refused {
            parcel,
            reason: self,
        }
    }
}

/// One of the texts `present` and `range`.
impl fmt::Display for Refusal {
    ghost use Rattle.std.specs.Prelude.{Some};
    ghost use Rattle.eevdf_queue.specs.Texts.{refusal_text};

    ghost output = { λ refusal. Some (refusal_text refusal) };

    fn fmt<W: fmt::Write>(&self, f: &mut fmt::Formatter<W>) -> fmt::Result {
        let word = match self {
            Refusal::Present => "present",
            Refusal::Range => "range",
        };
        f.write_str(word)
    }
}

impl Error for Refusal {}

/// The text of the reason. A `Refused` is no `Error`: that asks for a value that may be dropped, and this one has a task.
impl fmt::Display for Refused {
    ghost use Rattle.std.specs.Prelude.{Some};
    ghost use Rattle.eevdf_queue.specs.Texts.{refusal_text};

    ghost output = { λ refused. Some (refusal_text refused.reason) };

    fn fmt<W: fmt::Write>(&self, f: &mut fmt::Formatter<W>) -> fmt::Result {
        fmt::Display::fmt(&self.reason, f)
    }
}
