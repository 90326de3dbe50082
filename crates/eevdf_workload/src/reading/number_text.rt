ghost use Rattle.std.specs.Prelude.{◌≡◌, ◌∷◌, drop, option_and_then};
ghost use Rattle.eevdf_workload.specs.Words.{first_number, fitting, number, number_on, words, IsSplitOff};

/// The number that a word writes: `0`, or a digit from 1 to 9 followed by digits. `None` also where it
/// doesn't fit its type.
#[tactic(auto, using(crate::proofs::ReadingWords::number_none, crate::proofs::ReadingWords::number_some, crate::proofs::ReadingWords::number_more))]
pub fn number(word: &[u8]) -> Option<u64>
    ensures { result ≡ option_and_then fitting (number word.now) }
{
    match split_number(word)? {
        (number, None) => Some(number),
        _ => None,
    }
}

/// The number that the first word of a text writes, and what stands after the space behind it, if there is one.
#[tactic(auto, using(crate::proofs::ReadingWords::empty_text, crate::proofs::ReadingWords::first_digit, crate::proofs::ReadingWords::no_digit))]
pub(crate) fn split_number(text: &[u8]) -> Option<(u64, Option<&[u8]>)>
    ensures { IsSplitOff (first_number (words text.now)) (drop 1 (words text.now)) result }
{
    let [first, after @ ..] = text else {
        return None;
    };
    if *first == b'0' {
        split_zero(after)
    } else if first.is_ascii_digit() {
        split_digits(text)
    } else {
        None
    }
}

// The same for a text that is `0` with these bytes after it.
#[tactic(auto, using(crate::proofs::ReadingWords::zero_alone, crate::proofs::ReadingWords::zero_before, crate::proofs::ReadingWords::zero_within))]
fn split_zero(after: &[u8]) -> Option<(u64, Option<&[u8]>)>
    ensures { IsSplitOff (first_number (words (48 ∷ after.now)))
        (drop 1 (words (48 ∷ after.now))) result }
{
    match after {
        [] => Some((0, None)),
        [b' ', left @ ..] => Some((0, Some(left))),
        _ => None,
    }
}

// The same for a text that begins with a digit from 1 to 9.
fn split_digits(text: &[u8]) -> Option<(u64, Option<&[u8]>)>
    ensures { IsSplitOff (number_on 0 (words text.now)) (drop 1 (words text.now)) result }
{
    let mut number: u64 = 0;
    let mut left = text;
    'digits: while let [byte, after @ ..] = left {
        match *byte {
            b'0'..=b'9' => {
                number = number
                    .checked_mul(10)?
                    .checked_add(u64::from(*byte - b'0'))?;
                left = after;
            }
            b' ' => return Some((number, Some(after))),
            _ => return None,
        }
    }
    Some((number, None))
}
