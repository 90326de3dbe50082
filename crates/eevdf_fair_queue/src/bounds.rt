//! How far the runnable tasks of a queue can be past one another's deadlines.

ghost use Rattle.std.specs.Prelude.{◌≡◌};
ghost use Rattle.std.specs.Int.{int_max, int_min};
ghost use Rattle.std.specs.FinMap as map;
ghost use Rattle.eevdf_queue.specs.State.{State};
ghost use Rattle.eevdf_fair_queue.specs.Bounds as bounds;
ghost use Rattle.eevdf_fair_queue.specs.Fair.{IsFair, mark_of};

mod arrivals;
mod lateness;
mod measuring;
mod turns;

use eevdf_queue::{Entry, Queue, TaskId};

/// How far the runnable tasks of a queue can be past one another's deadlines, in virtual time: no virtual runtime is past the furthest, and
/// that isn't past the front and, by more than the longest turn, past any deadline.
#[derive(Clone, Copy, PartialEq, Eq, Debug)]
pub struct Bounds {
    /// A virtual time that some task may have come to out of its turn. Who is due before it can be late by
    /// as much.
    pub front: i64,
    /// How far a task has come since the queue was empty, or since the bounds were measured: no virtual runtime is greater.
    pub furthest: i64,
    /// What the longest turn was charged since the queue was empty, or since the bounds were measured; no less than by how much a task was past
    /// a deadline then.
    pub longest: i64,
    /// What was charged since the last pick, as long as the task picked is past no deadline by more than that: `None` from the moment on
    /// at which another task comes before it or past the virtual time, or at which a task is adopted or comes to an empty queue.
    pub turn: Option<i64>,
}

/// A virtual time and a deadline: where a task stood before a call, or, where it wasn't runnable, the virtual time and the deadline of the
/// task that a pick would have let run.
#[derive(Clone, Copy, PartialEq, Eq, Debug)]
pub struct Mark {
    /// The virtual runtime, or the virtual time.
    pub v: i64,
    /// The deadline.
    pub d: i64,
}

impl Mark {
    /// Where a task stands, or else the virtual time and the deadline of the pick.
    pub fn of(queue: &Queue, task: TaskId) -> Option<Mark>
        ensures { result ≡ mark_of queue.now.state task }
    {
        if let Some(entry) = queue.entry(task) {
            return Some(Mark {
                v: entry.v,
                d: entry.d,
            });
        }
        let first = queue.peek()?;
        let entry = queue.entry(first)?;
        Some(Mark {
            v: queue.floor_time(),
            d: entry.d,
        })
    }
}

impl Bounds {
    /// Those of a queue in which nothing is runnable.
    pub fn fresh() -> Bounds
        ensures value { result ≡ bounds.fresh }
        ensures fair { (q : State) → q.runnable ≡ map.empty → IsFair q result }
    {
        Bounds {
            front: i64::MIN,
            furthest: i64::MIN,
            longest: 0,
            turn: None,
        }
    }

    /// Those after a pick, with which a turn begins.
    pub fn picked(self) -> Bounds
        ensures { result ≡ bounds.picked self }
    {
        Bounds {
            turn: Some(0),
            ..self
        }
    }

    /// Those where a task runs now that wasn't picked, if that is so.
    pub fn adopted(self, is: bool) -> Bounds
        ensures { result ≡ bounds.adopted self is }
    {
        if is {
            Bounds { turn: None, ..self }
        } else {
            self
        }
    }

    /// Makes them those after the running task was charged, and has come to a virtual runtime.
    // in place, since a tick is to write no more than what it changes
    fn charge(&mut self, charge: i64, v: i64)
        ensures { self.new ≡ bounds.ticked self.old charge v }
    {
        match self.turn {
            None => *self = self.reached(v),
            Some(turn) => self.grow(turn.saturating_add(charge), v),
        }
    }

    /// Those after a call that touched one task: where the task stands now, if it is runnable, beside the mark of before, which is
    /// `None` where nothing was runnable.
    pub fn settled(self, mark: Option<Mark>, now: Option<Entry>) -> Bounds
        ensures { result ≡ bounds.settled self mark now }
    {
        let Some(entry) = now else {
            return self;
        };
        let Some(mark) = mark else {
            return Bounds::fresh().reached(entry.v);
        };
        self.reached(entry.v)
            .advanced_where(entry.d < mark.d)
            .adopted(mark.v < entry.v)
    }

    /// Those after all virtual times were lowered by a number.
    pub fn lowered(self, by: i64) -> Bounds
        ensures { result ≡ bounds.lowered self by }
    {
        Bounds {
            front: self.front.saturating_sub(by),
            furthest: self.furthest.saturating_sub(by),
            ..self
        }
    }

    /// By how much the virtual time can be past a deadline.
    pub fn late_by(self, deadline: i64) -> i64
        ensures { result ≡ bounds.late_by self deadline }
    {
        greater(self.longest, self.front.saturating_sub(deadline))
    }

    /// Those where a task has come to a virtual runtime out of its turn.
    fn reached(self, v: i64) -> Bounds
        ensures { result ≡ bounds.reached self v }
    {
        if self.furthest < v {
            Bounds {
                front: greater(self.front, v),
                furthest: v,
                ..self
            }
        } else {
            self
        }
    }

    /// Those where the furthest task may be past a deadline that is earlier than those of before, if that is so.
    fn advanced_where(self, is: bool) -> Bounds
        ensures { result ≡ bounds.advanced_where is self }
    {
        if is {
            Bounds {
                front: greater(self.front, self.furthest),
                turn: None,
                ..self
            }
        } else {
            self
        }
    }

    /// Makes them those where the turn that goes on has come to a charge, and whoever runs to a virtual runtime.
    fn grow(&mut self, turn: i64, v: i64)
        ensures { self.new ≡ bounds.grown self.old turn v }
    {
        self.furthest = greater(self.furthest, v);
        self.longest = greater(self.longest, turn);
        self.turn = Some(turn);
    }
}

/// The lesser one of two numbers.
fn lesser(a: i64, b: i64) -> i64
    ensures { result ≡ int_min a b }
{
    if b < a { b } else { a }
}

/// The greater one of two numbers.
fn greater(a: i64, b: i64) -> i64
    ensures { result ≡ int_max a b }
{
    if b < a { a } else { b }
}
