ghost use Rattle.eevdf_fleet.specs.Fleets.{Kit, no_kit};

use std::marker::Brand;

/// Says in contracts which kit a fleet was opened from. It has no functions. A fleet is opened in a function that is generic
/// over `N: Names`; its caller puts [`Brand`] for `N`, and gives the kit in its `Invariants.antt`.
pub trait Names {
    ghost kit: { Kit };
}

impl Names for Brand {
    ghost kit = { no_kit };
}
