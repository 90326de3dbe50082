ghost use Rattle.std.specs.Prelude.{◌≡◌, ◌≤◌, ◌^◌, [], ◌∷◌, pos, ◌≤ℤ◌, ◌<ℤ◌, true, unsigned_abs};
ghost use Rattle.eevdf_queue.specs.TreeLeast.{least_of, lesser, AreLow};

use crate::task::Task;

/// The least virtual runtime of some tasks.
#[derive(Clone, Copy)]
pub struct Least {
    pub runtime: i64,
}

impl Least {
    /// Of no task.
    pub fn none() -> Least
        ensures { result ≡ least_of [] }
    {
        Least { runtime: i64::MAX }
    }

    /// Of one task.
    pub fn of(task: &Task) -> Least
        ensures value { result ≡ least_of (task.now ∷ []) }
        ensures low { AreLow (task.now ∷ []) }
    {
        is_in_64_bits(task.entry.v);
        Least {
            runtime: task.entry.v,
        }
    }

    /// Whether it is less than another.
    pub fn is_below(&self, other: &Least) -> bool
        ensures { result ≡ true → self.now.runtime <ℤ other.now.runtime }
    {
        self.runtime < other.runtime
    }

    /// Of the tasks of both.
    pub fn or(&self, other: &Least) -> Least
        ensures { result ≡ lesser self.now other.now }
    {
        if other.runtime < self.runtime {
            *other
        } else {
            *self
        }
    }
}

/// A virtual runtime is a number of 64 bits.
pub fn is_in_64_bits(v: i64)
    ensures low { v ≤ℤ pos 0x7fff_ffff_ffff_ffff }
    ensures near { unsigned_abs v ≤ 2 ^ 63 }
{}
