ghost use Rattle.std.specs.Prelude.{◌≡◌, pos, option_and_then, option_map};
ghost use Rattle.eevdf_weight.specs.Limits.{checked_level};
ghost use Rattle.eevdf_workload.specs.Words.{below_zero, level_in, number};

use crate::reading::number_text::number;
use eevdf_weight::Nice;

/// The nice level that a word writes: a number, or `-` before a number from 1 on.
#[tactic(auto, using(crate::proofs::ReadingLevels::without_sign))]
pub fn level(word: &[u8]) -> Option<Nice>
    ensures { result ≡ level_in word.now }
{
    match word {
        [b'-', digits @ ..] => level_below_zero(number(digits)?),
        _ => level_from_zero(word),
    }
}

// The level that a word without a sign writes.
#[tactic(auto, using(crate::proofs::ReadingLevels::fitting_level))]
fn level_from_zero(word: &[u8]) -> Option<Nice>
    ensures { result ≡ option_and_then checked_level (option_map pos (number word.now)) }
{
    Nice::new(i64::try_from(number(word)?).ok()?)
}

// The level so far below 0, which isn't 0 itself.
fn level_below_zero(distance: u64) -> Option<Nice>
    ensures { result ≡ option_and_then checked_level (below_zero distance) }
{
    match i64::try_from(distance) {
        Ok(distance) if distance > 0 => Nice::new(-distance),
        _ => None,
    }
}
