ghost use Rattle.std.specs.Prelude.{◌≡◌, true};
ghost use Rattle.eevdf_queue.specs.Lag.{is_lag};

use eevdf_queue::Parcel;
use std::mem::{align_of, size_of};

/// What a task in a hand has, as C sees it.
#[repr(C)]
#[derive(Clone, Copy)]
pub struct ParcelOut {
    /// The number of the task.
    pub task: u64,
    /// The nice level, from -20 to 19.
    pub nice: i64,
    /// The length of each of its requests, in nanoseconds.
    pub slice_ns: u64,
    /// The virtual runtime that it starts at.
    pub start: i64,
    /// The lag, in virtual time.
    pub lag: i64,
}

impl ParcelOut {
    /// A parcel in numbers. The lag is within the limit of its nice level and slice.
    pub fn of(parcel: &Parcel) -> ParcelOut
        ensures task { result.task ≡ parcel.now.task }
        ensures nice { result.nice ≡ parcel.now.nice }
        ensures slice { result.slice_ns ≡ parcel.now.slice }
        ensures start { result.start ≡ parcel.now.start }
        ensures lag { result.lag ≡ parcel.now.lag }
        ensures limited { is_lag result.lag result.nice result.slice_ns ≡ true }
    {
        ParcelOut {
            task: parcel.task().get(),
            nice: parcel.nice().get(),
            slice_ns: parcel.slice().get(),
            start: parcel.start(),
            lag: parcel.lag(),
        }
    }
}

// the bytes that the header for C gives it
const _: () = prove!(size_of::<ParcelOut>() == 40 && align_of::<ParcelOut>() == 8);
