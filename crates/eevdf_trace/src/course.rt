//! What an event makes of a task.

ghost use Rattle.std.specs.Prelude.{◌≡◌};
ghost use Rattle.eevdf_trace.specs.Courses as spec;

use eevdf_closed_loop::{Phase, Span};
use eevdf_weight::Nice;

/// Where a task stands.
#[derive(Clone, Copy, PartialEq, Eq, Debug)]
pub enum Standing {
    /// It runs on a CPU.
    Running,
    /// It could run, and doesn't.
    Runnable,
    Asleep,
    /// It has ended. Where it is seen once more, its number has been given to another task, and it is as though it had slept.
    Dead,
}

/// What a task has come to.
#[derive(Clone, Copy, PartialEq, Eq, Debug)]
pub struct Course {
    pub standing: Standing,
    /// Since when it stands there. Moments and lengths are in nanoseconds.
    pub since: u64,
    /// For how long it had run until then, since it last woke or began.
    pub ran: u64,
    pub nice: Nice,
}

/// How a task leaves its CPU.
#[derive(Clone, Copy, PartialEq, Eq, Debug)]
pub enum Leaving {
    /// Another one takes its place.
    Preempted,
    /// It falls asleep.
    Asleep,
    /// It ends.
    Dead,
}

/// What an event does to a task.
#[derive(Clone, Copy, PartialEq, Eq, Debug)]
pub enum Change {
    Wakes,
    /// A CPU switches to it.
    Comes,
    /// A CPU switches from it, which had switched before at this moment: where nothing says that it came there, it came then.
    Leaves { how: Leaving, switched: u64 },
}

/// What a task has come to by an event, and the phases that are over or begin by it, in this order.
#[derive(Clone, Copy, PartialEq, Eq, Debug)]
pub struct Step {
    pub course: Course,
    pub slept: Option<Phase>,
    pub reniced: Option<Phase>,
    pub ran: Option<Phase>,
}

/// The last phases of a task, where the trace ends.
#[derive(Clone, Copy, PartialEq, Eq, Debug)]
pub struct End {
    pub ran: Option<Phase>,
    pub last: Phase,
}

impl Course {
    /// A task that can run from a moment on.
    pub fn from(moment: u64, nice: Nice) -> Course
        ensures { result ≡ spec.from moment nice }
    {
        Course {
            standing: Standing::Runnable,
            since: moment,
            ran: 0,
            nice,
        }
    }

    /// For how long it has run at a moment, since it last woke or began.
    fn ran_at(&self, at: u64) -> u64
        ensures { result ≡ spec.ran_at self.now at }
    {
        match self.standing {
            Standing::Running => self.ran.saturating_add(at.saturating_sub(self.since)),
            _ => self.ran,
        }
    }

    /// The phase in which it has run until a moment.
    fn run_until(&self, at: u64) -> Phase
        ensures { result ≡ spec.run_until self.now at }
    {
        Phase::Run(span_of(self.ran_at(at)))
    }

    /// The phase in which it has slept until a moment, where it wakes then.
    fn slept_until(&self, at: u64) -> Option<Phase>
        ensures { result ≡ spec.slept_until self.now at }
    {
        match self.standing {
            Standing::Asleep | Standing::Dead => {
                Some(Phase::Sleep(span_of(at.saturating_sub(self.since))))
            }
            _ => None,
        }
    }

    /// Where it wakes at a moment, if it is asleep.
    fn woken(&self, at: u64) -> Course
        ensures { result ≡ spec.woken self.now at }
    {
        match self.standing {
            Standing::Asleep | Standing::Dead => Course::from(at, self.nice),
            _ => self.with(self.nice),
        }
    }

    /// Where a CPU switches to it at a moment, if it doesn't run.
    fn come(&self, at: u64) -> Course
        ensures { result ≡ spec.come self.now at }
    {
        match self.standing {
            Standing::Running => self.with(self.nice),
            _ => Course {
                standing: Standing::Running,
                since: at,
                ran: self.ran,
                nice: self.nice,
            },
        }
    }

    /// Where a CPU switches from it at a moment.
    fn left(&self, how: Leaving, at: u64) -> Course
        ensures { result ≡ spec.left self.now how at }
    {
        let (standing, ran) = match how {
            Leaving::Preempted => (Standing::Runnable, self.ran_at(at)),
            Leaving::Asleep => (Standing::Asleep, 0),
            Leaving::Dead => (Standing::Dead, 0),
        };
        Course {
            standing,
            since: at,
            ran,
            nice: self.nice,
        }
    }

    /// The moment at which it has come to where an event at a moment finds it.
    fn found_at(&self, change: Change, at: u64) -> u64
        ensures { result ≡ spec.found_at self.now change at }
    {
        match change {
            Change::Leaves { how: _, switched } => switched.max(self.since),
            _ => at,
        }
    }

    /// The phase that gives it a nice level, where it hasn't that one.
    fn reniced(&self, nice: Nice) -> Option<Phase>
        ensures { result ≡ spec.reniced self.now nice }
    {
        if self.nice == nice {
            None
        } else {
            Some(Phase::Nice(nice))
        }
    }

    /// It with a nice level.
    fn with(&self, nice: Nice) -> Course
        ensures { result ≡ spec.with self.now nice }
    {
        Course {
            standing: self.standing,
            since: self.since,
            ran: self.ran,
            nice,
        }
    }
}

/// So many nanoseconds, and 1 at least.
fn span_of(ns: u64) -> Span
    ensures { result ≡ spec.span_of ns }
{
    let ns = ns.max(1);
    Span {
        least: ns,
        most: ns,
    }
}

/// What an event at a moment makes of a task, which has a nice level then.
pub fn step_of(course: &Course, change: Change, nice: Nice, at: u64) -> Step
    ensures { result ≡ spec.step_of course.now change nice at }
{
    let found = course.found_at(change, at);
    let slept = course.slept_until(found);
    let reniced = course.reniced(nice);
    let awake = course.woken(found).with(nice);
    match change {
        Change::Wakes => Step {
            course: awake,
            slept,
            reniced,
            ran: None,
        },
        Change::Comes => Step {
            course: awake.come(at),
            slept,
            reniced,
            ran: None,
        },
        Change::Leaves { how, switched: _ } => {
            let running = awake.come(found);
            Step {
                course: running.left(how, at),
                slept,
                reniced,
                ran: running.run_over(how, at),
            }
        }
    }
}

impl Course {
    /// The phase that is over where a CPU switches from it at a moment.
    fn run_over(&self, how: Leaving, at: u64) -> Option<Phase>
        ensures { result ≡ spec.run_over self.now how at }
    {
        match how {
            Leaving::Preempted => None,
            _ => Some(self.run_until(at)),
        }
    }
}

/// The last phases of a task, where the trace ends at a moment.
pub fn end_of(course: &Course, at: u64) -> End
    ensures { result ≡ spec.end_of course.now at }
{
    match course.standing {
        Standing::Asleep => End {
            ran: None,
            last: Phase::Suspend,
        },
        Standing::Dead => End {
            ran: None,
            last: Phase::End,
        },
        _ => End {
            ran: Some(course.run_until(at)),
            last: Phase::Suspend,
        },
    }
}
