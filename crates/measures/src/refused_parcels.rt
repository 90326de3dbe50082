use eevdf_queue::Refused;

/// Lets a task end that a queue has refused.
pub fn end_if_refused(answer: Result<(), Refused>) {
    if let Err(Refused { parcel, reason: _ }) = answer {
        parcel.retire();
    }
}
