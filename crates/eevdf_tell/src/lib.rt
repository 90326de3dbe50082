//! What the programs say on standard error of a workload that is refused, and of keys that nothing reads and deeds that are refused in one
//! that isn't: the place and what is wrong there, the line of the workload, and a mark below it.
//!
//! What is wrong and where is found by eevdf_explain, which looks at the text of a workload alone; what is wrong with an order is said here
//! (`order_faults`). Here it is put into lines, under the name of the file: of what the workbench refuses a workload with (`told_faults`),
//! and of what its notes have beside a report (`told_notes`).
#![tactic(auto)]

mod order_faults;
mod shown;
mod told_faults;
mod told_keys;
mod told_notes;

pub use shown::explanation_text;
pub use told_faults::{fault_explanation, place_explanation};
pub use told_notes::tell_notes;
