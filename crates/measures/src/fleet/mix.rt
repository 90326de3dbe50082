/// What the operations of a run are.
#[derive(Clone, Copy, PartialEq, Eq, Debug)]
pub enum Mix {
    /// Ticks and picks.
    Own,
    /// These, sleeps of the running task, posts of wakes, and drains.
    Wakes,
    /// Ticks, picks, pulls from other CPUs, and new levels of the running task.
    Pulls,
    /// Ticks, picks, tasks that begin, of which a tenth is given another level and slice while it sleeps, posts that wake them, drains, and
    /// ends of the running task; half of the tasks are asleep at first.
    Comes,
    /// All kinds of operations but those by which tasks come and go, also of tasks that don't run; a quarter of the tasks is asleep at first,
    /// and there is room for few requests, so that some posts are refused.
    All,
}

impl Mix {
    /// The mix that a word names.
    pub fn of(word: &str) -> Option<Mix> {
        match word {
            "own" => Some(Mix::Own),
            "wakes" => Some(Mix::Wakes),
            "pulls" => Some(Mix::Pulls),
            "comes" => Some(Mix::Comes),
            "all" => Some(Mix::All),
            _ => None,
        }
    }
}
