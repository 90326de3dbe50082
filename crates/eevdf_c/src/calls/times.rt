//! Nanoseconds that a call writes.

ghost use Rattle.std.specs.Prelude.{◌≡◌, unsigned_abs};
ghost use Rattle.eevdf_c.specs.Codes.{done};
ghost use Rattle.eevdf_c.specs.Found.{found_or};
ghost use Rattle.eevdf_c.specs.Shares as shares_out;

use crate::codes::{DONE, RANGE};

/// Writes a number where 64 bits with a sign have it.
pub fn tell(found: u128, ns: &mut i64) -> i64
    ensures answer { result ≡ shares_out.told_code (shares_out.checked_time found) }
    ensures told { ns.new ≡ found_or ns.old (shares_out.checked_time found) }
    ensures whole { result ≡ done → unsigned_abs ns.new ≡ found }
{
    match i64::try_from(found) {
        Ok(found) => {
            *ns = found;
            DONE
        }
        Err(_) => RANGE,
    }
}
