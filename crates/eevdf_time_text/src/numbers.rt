//! Numbers as they are written.

ghost use Rattle.std.specs.Prelude.{◌≡◌, ◌≤◌, ◌^◌, IfSome, IfNone};
ghost use Rattle.std.specs.Str.Parse.{IsNumeral, digits_value};

/// The number that digits are. `None` where a text isn't digits alone, or the number is 2^64 or greater.
pub fn number(digits: &str) -> Option<u64>
    ensures number { IfSome result (λ n. IsNumeral 10 digits.now × (n ≡ digits_value 10 digits.now)) }
    ensures none { IfNone result (IsNumeral 10 digits.now → 2 ^ 64 ≤ digits_value 10 digits.now) }
{
    match digits.as_bytes() {
        [b'+', ..] => None,
        _ => digits.parse::<u64>().ok(),
    }
}
