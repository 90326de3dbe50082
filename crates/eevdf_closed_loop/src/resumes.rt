//! The tasks of a group that are suspended, and the resumes that are kept for it.

use crate::places::Places;

/// What is known of the suspended tasks of a group.
#[derive(Drop)]
pub(crate) struct Resumes {
    /// How many resumes have found no task suspended and were kept.
    kept: u64,
    pub suspended: Places,
}

impl Resumes {
    /// A group at the start, when none of its tasks is suspended.
    pub fn at_start() -> Resumes {
        Resumes {
            kept: 0,
            suspended: Places::of(0),
        }
    }

    /// Takes a resume that was kept, if there is one.
    pub fn take(&mut self) -> bool {
        let is_kept = self.kept > 0;
        self.kept = self.kept.saturating_sub(1);
        is_kept
    }

    /// A resume is kept.
    pub fn keep(&mut self) {
        self.kept = self.kept.saturating_add(1);
    }
}
