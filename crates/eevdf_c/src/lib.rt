//! A run queue for programs in C, C++ and Rust, in memory that the caller gives: [`eevdf_queue::Queue`] behind calls that take
//! pointers and numbers, and answer a code.
//!
//! C keeps one condition: a pointer is to a queue that was opened, or a hand, that nobody else uses meanwhile; and where a queue
//! or a hand is opened, to that many bytes of its own. All else is tested, and has its code. Each export's contract gives the
//! exact code and the exact state afterwards, by the definitions that the queue's own contracts use. An error changes nothing.
//!
//! [`calls`] does the work on references, and is proved like any safe code. [`exports`] makes references of C's pointers; those
//! proofs are uniform, and a script writes them: tools/export_proofs/README.md. [`moving`] is what C relies on where it moves the
//! bytes of a queue or a hand.
#![tactic(auto)]

mod calls;
mod codes;
mod entry_out;
mod exports;
mod fair_bounds;
mod fair_shares;
mod given_block;
mod hand;
mod moving;
mod opened;
mod other_calls;
mod parcel_out;
mod place_out;
mod sleeper_out;
