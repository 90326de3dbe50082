/// How the operations are done.
#[derive(Clone, Copy, PartialEq, Eq, Debug)]
pub enum Way {
    /// By a fleet, each thread those of its own CPUs.
    Fleet,
    /// By a fleet, whose history and queues are then compared with those of one thread.
    Check,
    /// In one thread without a fleet, those of the threads in turn.
    Solo,
    /// By a fleet that keeps no history, each thread those of its own CPUs. Afterwards each task has to stand in one place.
    Endless,
    /// In one thread, those of the threads in turn, by a fleet with a history and again by one without; what comes of each operation,
    /// the queues and the requests that are left are compared.
    Twins,
}

impl Way {
    /// The way that a word names.
    pub fn of(word: &str) -> Option<Way> {
        match word {
            "fleet" => Some(Way::Fleet),
            "check" => Some(Way::Check),
            "solo" => Some(Way::Solo),
            "endless" => Some(Way::Endless),
            "twins" => Some(Way::Twins),
            _ => None,
        }
    }
}
