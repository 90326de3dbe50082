ghost use Rattle.std.specs.Prelude.{◌≡◌, Some, None};
ghost use Rattle.eevdf_steps.specs.Places.{is_in_hand};

use eevdf_queue::{Parcel, TaskId};
use std::marker::Model;

/// The hand of a caller, seen as the task in it, where there is one. That task ends where the hand is dropped.
pub(crate) struct Hand {
    parcel: Option<Parcel>,
}

impl Model for Hand {
    ghost use Rattle.std.specs.Prelude.{Option};
    ghost use Rattle.eevdf_queue.specs.State.{Contents};

    ghost Value = { Option Contents };

    ghost view = { λ h. h.parcel };
}

impl Drop for Hand {
    fn drop(self) {
        let Hand { parcel } = self;
        if let Some(parcel) = parcel {
            parcel.retire();
        }
    }
}

impl Hand {
    /// A hand with this task in it, where there is one.
    pub(crate) fn of(parcel: Option<Parcel>) -> Hand
        ensures { result ≡ parcel }
    {
        Hand { parcel }
    }

    /// Takes the task out, and leaves the hand empty.
    pub(crate) fn take(&mut self) -> Option<Parcel>
        ensures parcel { result ≡ self.old }
        ensures empty { self.new ≡ None }
    {
        self.parcel.take()
    }

    /// Whether a task is in the hand.
    pub(crate) fn holds(&self, task: TaskId) -> bool
        ensures { result ≡ is_in_hand self.now task }
    {
        match &self.parcel {
            None => false,
            Some(parcel) => task.get() == parcel.task().get(),
        }
    }
}
