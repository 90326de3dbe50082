use crate::refused_parcels::end_if_refused;
use eevdf_fair_queue::FairQueue;
use eevdf_queue::{Parcel, Queue, TaskId, TickAnswer};
use eevdf_weight::Ns;

/// A queue of either kind, by the calls that are counted.
pub trait CountedQueue {
    fn pick_next(&mut self) -> Option<TaskId>;

    fn charge(&mut self, ns: Ns) -> TickAnswer;

    fn admit(&mut self, parcel: Parcel);
}

impl CountedQueue for Queue {
    #[inline(always)]
    fn pick_next(&mut self) -> Option<TaskId> {
        self.pick()
    }

    #[inline(always)]
    fn charge(&mut self, ns: Ns) -> TickAnswer {
        self.tick(ns)
    }

    fn admit(&mut self, parcel: Parcel) {
        end_if_refused(self.try_admit(parcel));
    }
}

impl CountedQueue for FairQueue {
    #[inline(always)]
    fn pick_next(&mut self) -> Option<TaskId> {
        self.pick()
    }

    #[inline(always)]
    fn charge(&mut self, ns: Ns) -> TickAnswer {
        self.tick(ns)
    }

    fn admit(&mut self, parcel: Parcel) {
        end_if_refused(self.try_admit(parcel));
    }
}
