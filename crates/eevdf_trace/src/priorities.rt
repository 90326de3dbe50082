//! Priorities as a trace has them.

ghost use Rattle.std.specs.Prelude.{◌≡◌};
ghost use Rattle.eevdf_trace.specs.Priorities as spec;

use eevdf_weight::Nice;

/// The nice level of a priority. A real-time task's priority is below 100, and counts as the heaviest level.
pub fn nice_at(priority: u64) -> Nice
    ensures { result ≡ spec.nice_at priority }
{
    if priority < 100 {
        return Nice::MIN;
    }
    if priority > 139 {
        return Nice::MAX;
    }
    match Nice::new(priority as i64 - 120) {
        Some(nice) => nice,
        None => Nice::MAX,
    }
}
