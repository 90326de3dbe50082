//! What the version of a workload decides.
ghost use Rattle.eevdf_workload.specs.MeaningLaws.{KeepsMeaning};

use crate::version::Version;

/// A document of version 1 that describes a workload describes the same workload in version 2.
pub fn version_two_keeps_meaning()
    ensures { KeepsMeaning Version.One Version.Two }
{}

/// A document of version 2 that describes a workload describes the same workload in version 3.
pub fn version_three_keeps_meaning()
    ensures { KeepsMeaning Version.Two Version.Three }
{}

/// A document of version 3 that describes a workload describes the same workload in version 4.
pub fn version_four_keeps_meaning()
    ensures { KeepsMeaning Version.Three Version.Four }
{}
