//! Doing the deeds of a history once more, for those who look at the machine between them.

use eevdf_clocks::Moment;
use eevdf_ops::{Line, Setup, Solo};
use std::alloc::{AllocError, Global};

/// Who looks at the machine, before and after each deed.
pub trait Observer {
    /// Looks at the machine as the setup opens it.
    fn begin(&mut self, solo: &Solo) -> Result<(), AllocError>;

    /// Looks at it before a deed.
    fn before_deed(&mut self, solo: &Solo, moment: &Moment) -> Result<(), AllocError>;

    /// Looks at it after the deed at a place of the history, which is counted from 1 on.
    fn after_deed(&mut self, solo: &Solo, moment: &Moment, place: usize) -> Result<(), AllocError>;

    /// Knows that all deeds are done.
    fn end(&mut self);
}

/// Who is told how far it is.
pub trait Progress {
    /// One more deed is done, and so many before it, of all these.
    fn tell(&self, done: usize, all: usize);

    /// No more of all these deeds will be done: the last one is, or memory is missing. Not told where the first one wasn't begun.
    fn end(&self, all: usize);
}

/// Does the deeds of a history on a machine of its own, and says how far it is. It is refused memory alone: that of the machine, or what
/// the observer wants, which isn't told of the end then.
pub fn observe<O: Observer, P: Progress>(
    alloc: Global,
    setup: &Setup,
    moments: &[Moment],
    observer: &mut O,
    progress: &P,
) -> Result<(), AllocError> {
    let mut solo = Solo::open(alloc, setup)?;
    observer.begin(&solo)?;
    let observed = observe_each(&mut solo, moments, observer, progress);
    progress.end(moments.len());
    observed?;
    observer.end();
    Ok(())
}

fn observe_each<O: Observer, P: Progress>(
    solo: &mut Solo,
    moments: &[Moment],
    observer: &mut O,
    progress: &P,
) -> Result<(), AllocError> {
    for (done, moment) in moments.iter().enumerate() {
        observer.before_deed(solo, moment)?;
        do_again(solo, &moment.line);
        observer.after_deed(solo, moment, done.saturating_add(1))?;
        progress.tell(done, moments.len());
    }
    Ok(())
}

/// Does a deed of a history on a machine that has done all before it. The answer is the line's: the history is that of the one thread
/// that does its deeds from the start, and `try_apply` answers as that thread.
fn do_again(solo: &mut Solo, line: &Line) {
    let _ = solo.try_apply(line.deed);
}
