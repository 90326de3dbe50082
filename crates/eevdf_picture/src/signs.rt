//! The signs of marks: what each is called, and which one a deed has.

use eevdf_clocks::Moment;
use eevdf_ops::Answer;
use eevdf_queue::TaskId;
use std::fmt;

/// What a mark shows: the place of a row in `SIGNS`.
#[derive(Clone, Copy, PartialEq, Eq)]
pub(crate) struct Sign(pub usize);

/// All signs, in the order of the legend: the name of the shape, and the words beside it.
const SIGNS: [(&'static str, &'static str); Sign::COUNT] = [
    ("pick", "pick"),
    ("same", "pick of the same"),
    ("wake", "wake"),
    ("sleep", "sleep"),
    ("pull", "pull"),
    ("renice", "renice"),
    ("yield", "yield"),
    ("refused", "refused"),
    ("begin", "begin"),
    ("end", "end"),
    ("set", "set"),
    ("rebase", "rebase"),
    ("nothing", "found nothing"),
];

impl Sign {
    /// A pick of another task than ran.
    const PICK: Sign = Sign(0);
    /// A pick of the task that runs, which changes nothing.
    const SAME_PICK: Sign = Sign(1);

    const WAKE: Sign = Sign(2);

    /// A task falls asleep, by a sleep or a doze.
    const SLEEP: Sign = Sign(3);

    pub(crate) const PULL: Sign = Sign(4);

    const RENICE: Sign = Sign(5);

    const YIELD: Sign = Sign(6);
    /// A deed that was refused.
    const REFUSED: Sign = Sign(7);
    /// A task begins.
    const BEGIN: Sign = Sign(8);
    /// A task ends.
    const END: Sign = Sign(9);
    /// A task gets a nice level and a slice.
    const SET: Sign = Sign(10);
    /// All virtual times of the CPU are lowered by one number, which may be 0.
    const REBASE: Sign = Sign(11);
    /// One that found nothing to do: nobody to pick or to charge, or no task to pull.
    const NOTHING: Sign = Sign(12);

    /// How many signs there are.
    pub(crate) const COUNT: usize = 13;

    /// Its entry in the legend.
    pub(crate) fn key(&self) -> (&'static str, &'static str) {
        SIGNS[self.0 % SIGNS.len()]
    }
}

/// The name of the sign's shape.
impl fmt::Display for Sign {
    fn fmt<W: fmt::Write>(&self, f: &mut fmt::Formatter<W>) -> fmt::Result {
        let (shape, _words) = self.key();
        f.write_str(shape)
    }
}

/// The sign of a deed, before which this task ran on its CPU. A tick that charged somebody has none.
pub(crate) fn sign_of(moment: &Moment, running: Option<TaskId>) -> Option<Sign> {
    Some(match moment.line.answer {
        Answer::Charged { .. } => return None,
        Answer::Picked(task) if running == Some(task) => Sign::SAME_PICK,
        Answer::Picked(_) => Sign::PICK,
        Answer::Yielded => Sign::YIELD,
        Answer::Slept(_) => Sign::SLEEP,
        Answer::Woken => Sign::WAKE,
        Answer::Pulled(_) => Sign::PULL,
        Answer::Reniced => Sign::RENICE,
        Answer::Begun => Sign::BEGIN,
        Answer::Ended => Sign::END,
        Answer::Set => Sign::SET,
        Answer::Rebased(_) => Sign::REBASE,
        _ => if moment.line.is_refused() {
            Sign::REFUSED
        } else {
            Sign::NOTHING
        },
    })
}
