ghost use Rattle.std.specs.Prelude.{◌≡◌, ◌≤◌, ◌-ℤ◌, negsuc, if◌then◌else◌};
ghost use Rattle.eevdf_weight.specs.Placement.{floor_div};

/// A quotient, rounded down. Where both numbers fit 64 bits they are divided in 64 bits, which is much cheaper
/// than a division of wider numbers.
pub fn floor_quotient(dividend: i128, divisor: u64) -> i128
    requires { 1 ≤ divisor }
    ensures { result ≡ floor_div dividend divisor }
{
    match (i64::try_from(dividend), i64::try_from(divisor)) {
        (Ok(dividend), Ok(divisor)) => i128::from(dividend.div_euclid(divisor)),
        _ => dividend.div_euclid(i128::from(divisor)),
    }
}

/// A quotient of numbers of 64 bits, rounded down. A division without signs takes less time than one with them, so of a dividend
/// below 0 the complement, -1 less it, is divided, and the quotient is the complement of that.
#[inline(always)]
pub fn narrow_floor_quotient(dividend: i64, divisor: u64) -> i64
    requires { 1 ≤ divisor }
    ensures { result ≡ floor_div dividend divisor }
{
    let below = dividend < 0;
    let quotient = complement_if(below, dividend) as u64 / divisor;
    complement_if(below, quotient as i64)
}

/// A number, or its complement where that is wanted: -1 less the number. The complement of a complement is the number again.
#[inline(always)]
fn complement_if(wanted: bool, number: i64) -> i64
    ensures { result ≡ (if wanted then negsuc 0 -ℤ number else number) }
{
    if wanted { -1 - number } else { number }
}
