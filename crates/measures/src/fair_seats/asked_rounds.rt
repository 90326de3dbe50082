use drawn_values::count_of;

/// How many rounds the words ask for.
#[derive(Clone, Copy)]
pub struct AskedRounds {
    pub rounds: u64,
}

impl AskedRounds {
    /// The rounds that these words ask for. `None` where they aren't one number of rounds.
    pub fn of(words: &[String]) -> Option<AskedRounds> {
        let [rounds] = words else {
            return None;
        };
        Some(AskedRounds {
            rounds: count_of(rounds.as_str(), 1_000_000)?,
        })
    }
}
