//! How the node of a sleeping task keeps its place, and how a place is read by a queue that has been lowered since.

ghost use Rattle.std.specs.Prelude.{◌≡◌, ◌≤◌, ◌^◌, ◌+ℤ◌, ◌-ℤ◌, unsigned_abs, IfSome, None, Some, true};
ghost use Rattle.eevdf_queue.specs.{NodePlaces.place_in, Rebase.is_shift};

use crate::entry::Entry;
use crate::task::Task;

/// The deadline that stands for no place.
pub const NO_PLACE: i64 = i64::MIN;

/// A place is so many of these as the deadline says, and above them the virtual runtime.
const UNIT: i128 = 1 << 62;

/// The place that a node keeps.
pub fn place_of(task: &Task) -> Option<i128>
    ensures value { result ≡ place_in task.now }
    ensures small { IfSome result (λ place. unsigned_abs place ≤ 2 ^ 126) }
{
    if task.entry.d == NO_PLACE {
        None
    } else {
        Some(i128::from(task.entry.d) * UNIT + i128::from(task.entry.v))
    }
}

/// The same task with a place.
pub fn with_place(task: &Task, place: i128) -> Task
    requires { unsigned_abs place ≤ 2 ^ 121 }
    ensures place { place_in result ≡ Some place }
    ensures rest { record result { entry = task.now.entry } ≡ task.now }
    ensures nice { result.entry.nice ≡ task.now.entry.nice }
    ensures slice { result.entry.slice ≡ task.now.entry.slice }
{
    Task {
        entry: Entry {
            v: place.rem_euclid(UNIT) as i64,
            d: place.div_euclid(UNIT) as i64,
            ..task.entry
        },
        ..*task
    }
}

/// The place of a task at a virtual runtime.
pub fn place_at(v: i64, shift: i128) -> i128
    requires { is_shift shift ≡ true }
    ensures value { result ≡ v +ℤ shift }
    ensures small { unsigned_abs result ≤ 2 ^ 121 }
{
    i128::from(v) + shift
}

/// The virtual runtime that a place is now.
pub fn runtime_at(place: i128, shift: i128) -> i128
    requires small { unsigned_abs place ≤ 2 ^ 126 }
    requires shift { is_shift shift ≡ true }
    ensures { result ≡ place -ℤ shift }
{
    place - shift
}
