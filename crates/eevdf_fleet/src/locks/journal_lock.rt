use crate::journal::Journal;
use crate::locks::lock_leave::JournalLeave;
use crate::names::Names;
use crossbeam_utils::CachePadded;
use std::sync::{Mutex, MutexGuard, Wait};

/// The journal in its lock.
#[derive(Drop)]
pub(crate) struct JournalLock<N: Names> {
    journal: CachePadded<Mutex<Journal<N>>>,
}

impl<N: Names> JournalLock<N> {
    pub(crate) fn new(journal: Journal<N>) -> JournalLock<N> {
        JournalLock {
            journal: CachePadded::new(Mutex::new(journal)),
        }
    }

    /// Takes the lock. It is mostly free, and then it is taken here, without a call.
    #[inline(always)]
    pub(crate) fn lock<'a, R: Wait>(
        &'a self,
        rt: &R,
        _leave: &'a mut JournalLeave<'_>,
    ) -> MutexGuard<'a, Journal<N>> {
        match self.journal.try_lock() {
            Some(guard) => guard,
            None => self.journal.lock(rt),
        }
    }

    /// The journal, when no thread shares it any more.
    pub(crate) fn into_journal(self) -> Journal<N> {
        self.journal.into_inner().into_inner()
    }
}
