//! What is often written in place of a length of time or a range.

use eevdf_time_text::length;
use std::fmt;
use toml::Value;

/// What is wrong with a value that is to be a length of time or a range.
#[derive(Clone, Copy, PartialEq, Eq, Debug)]
pub enum TimeSlip {
    /// A blank stands in it.
    Blank,
    /// Microseconds are written with a Greek letter.
    Greek,
    /// A number has no unit.
    NoUnit,
    /// Of the two lengths of a range the greater comes first.
    Backwards,
}

impl fmt::Display for TimeSlip {
    fn fmt<W: fmt::Write>(&self, f: &mut fmt::Formatter<W>) -> fmt::Result {
        f.write_str(match self {
            TimeSlip::Blank => "no blank stands in it",
            TimeSlip::Greek => "microseconds are written us",
            TimeSlip::NoUnit => "a number has its unit right behind it, ns, us, ms or s",
            TimeSlip::Backwards => "the lesser length comes first",
        })
    }
}

/// The slip in a value that is no length of time and no range, if it is one of these.
pub(crate) fn time_slip(value: &Value) -> Option<TimeSlip> {
    match value {
        Value::Integer(number) if *number > 0 => Some(TimeSlip::NoUnit),
        Value::String(text) => text_slip(text.as_str()),
        _ => None,
    }
}

fn text_slip(text: &str) -> Option<TimeSlip> {
    if text.contains(' ') {
        return Some(TimeSlip::Blank);
    }
    // the micro sign and the Greek letter
    if text.contains('\u{b5}') || text.contains('\u{3bc}') {
        return Some(TimeSlip::Greek);
    }
    let (first, last) = text.split_once("..").unwrap_or((text, text));
    if lacks_unit(first) || lacks_unit(last) {
        return Some(TimeSlip::NoUnit);
    }
    match (length(first), length(last)) {
        (Some(least), Some(most)) if most < least => Some(TimeSlip::Backwards),
        _ => None,
    }
}

/// Whether a text is a number above 0 alone.
fn lacks_unit(text: &str) -> bool {
    text != "0" && !text.is_empty() && text.bytes().all(|byte| byte.is_ascii_digit())
}
