//! What a text of a workload means, and in which versions.

use eevdf_workload::Version;
use std::alloc::Global;
use std::process::Abort;

pub const ALL: &[Version] = &[Version::One, Version::Two, Version::Three, Version::Four];

/// The versions after the first.
pub const LATER: &[Version] = &[Version::Two, Version::Three, Version::Four];

/// Those after the second.
pub const LAST_TWO: &[Version] = &[Version::Three, Version::Four];

pub const FOUR: &[Version] = &[Version::Four];

/// A deed or an operation, as what a text of a workload means.
pub trait Meaning: Copy + PartialEq {
    /// What a text means in a version. `None` where the workload is refused for it.
    fn read<A: Abort>(rt: &A, alloc: Global, version: Version, text: &str) -> Option<Self>;
}

/// Asks that a text means this in the versions that know it, and that the workload is refused for it in the others.
pub fn check<M: Meaning>(rt: &impl Abort, alloc: Global, known: &[Version], text: &str, meant: &M) {
    for version in ALL {
        let wanted = if known.contains(version) {
            Some(meant)
        } else {
            None
        };
        let read = M::read(rt, alloc, *version, text);
        assert!(rt; read.as_ref() == wanted, "{text} in version {version}");
    }
}
