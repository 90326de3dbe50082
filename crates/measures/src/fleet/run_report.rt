/// What came of a run.
#[derive(Clone, Copy, Debug)]
pub struct Report {
    /// How many operations were done.
    pub done: u64,
    /// Whether what it was compared with does the same, where that was asked, and what that is.
    pub agrees: Option<(bool, &'static str)>,
}

impl Report {
    /// The report of a run that was compared with nothing.
    pub fn of(done: u64) -> Report {
        Report { done, agrees: None }
    }

    /// The report of a run that was compared.
    pub fn compared(done: u64, agrees: bool, with: &'static str) -> Report {
        Report {
            done,
            agrees: Some((agrees, with)),
        }
    }
}
