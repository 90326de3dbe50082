ghost use Rattle.std.specs.Prelude.{◌≡◌, ◌<◌, ◌^◌, ◌*ℤ◌, pos};

/// A virtual time, or a lag, times a weight or a sum of weights, which no longer fits 64 bits. As signed numbers of 64 bits the two
/// are multiplied by one instruction.
pub fn wide_product(time: i64, weight: u64) -> i128
    requires { weight < 2 ^ 63 }
    ensures { result ≡ time *ℤ pos weight }
{
    i128::from(time) * i128::from(weight as i64)
}
