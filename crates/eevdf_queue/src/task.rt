ghost use Rattle.std.specs.Prelude.{◌≡◌};
ghost use Rattle.eevdf_queue.specs.{TaskLists.sleeper_in, NodePlaces.place_in};

use crate::entry::Entry;
use crate::sleeper::Sleeper;
use crate::task_id::TaskId;

/// What a node carries of its task: `entry` while it is runnable, `lag` while it sleeps. In a parcel the
/// start is the entry's virtual runtime. While the task sleeps, the entry's two times hold its place, if any.
#[derive(Clone, Copy)]
pub struct Task {
    pub number: TaskId,
    pub entry: Entry,
    pub lag: i64,
}

/// What the task brings along when it joins a queue.
pub fn sleeper_of(task: &Task) -> Sleeper
    ensures { result ≡ sleeper_in task.now }
{
    Sleeper {
        lag: task.lag,
        nice: task.entry.nice,
        slice: task.entry.slice,
    }
}

/// The same task, of which this is kept.
#[inline(always)]
pub fn keeping(task: &Task, sleeper: &Sleeper) -> Task
    ensures number { result.number ≡ task.now.number }
    ensures v { result.entry.v ≡ task.now.entry.v }
    ensures sleeper { sleeper_in result ≡ sleeper.now }
    ensures place { place_in result ≡ place_in task.now }
{
    Task {
        number: task.number,
        entry: Entry {
            nice: sleeper.nice,
            slice: sleeper.slice,
            ..task.entry
        },
        lag: sleeper.lag,
    }
}
