//! The workload: what a machine is set up from, the order in which its callers are to take their steps, and the
//! deeds to be done on it, as they are read from the bytes of a TOML document.
//!
//! The meaning of the bytes is one definition: the workload that they describe, or the first fault in them. The
//! version of the format decides how many CPUs and deeds there may be and which words are known.
#![tactic(auto)]

pub mod laws;
mod load_fault;
mod reading;
mod version;
mod workload;

pub use load_fault::{Key, LoadFault};
pub use reading::document_keys::version as version_of_document;
pub use reading::level_text::level;
pub use reading::number_text::number;
pub use reading::unread::{IN_DOCUMENT, IN_TASK};
pub use reading::{document_of, read_workload};
pub use version::{Limits, Version};
pub use workload::Workload;
