//! Worked values of single calls.

use eevdf_weight::{Nice, charge, placed, weight};

#[test]
fn values_round_as_they_are_worked(rt: HostRuntime) {
    assert!(rt; placed(0, 1024, -1, 335) == Some(2));
    assert!(rt; placed(0, 1024, 1, 335) == Some(-1));
    assert!(rt; charge(3_000_000, 15) == 204_800_000);
    assert!(rt; Nice::new(19).map(|nice| weight(nice)) == Some(15));
}
