//! The values that are read without a tree: numbers that begin with a digit, and strings.

ghost use Rattle.std.specs.Prelude.{◌≡◌, ◌<◌, ℕ, pos, Ok, Some, length, string_bytes, IfErr, IfOk, IfSome};
ghost use Rattle.eevdf_workload.specs.declared.load_fault.LoadFault.TheVariants.{Memory};
ghost use Rattle.toml.specs.Data.{integer, string};
ghost use Rattle.toml.specs.Parse as parse;

use crate::load_fault::LoadFault;
use crate::reading::document_keys::natural;
use std::alloc::Global;
use toml_parser::text::first;
use toml_parser::{ParseError, Scalar, quoted, starts_string, unquoted};

/// What was read, or `None` where it was refused for another reason than memory.
pub(crate) fn plain<T>(read: Result<T, ParseError>) -> Result<Option<T>, LoadFault>
    ensures value { IfOk result (λ found. IfSome found (λ value. read ≡ Ok value)) }
    ensures memory { IfErr result (λ e. e ≡ Memory) }
{
    match read {
        Ok(value) => Ok(Some(value)),
        Err(ParseError::OutOfMemory) => Err(LoadFault::Memory),
        Err(ParseError::At(..)) => Ok(None),
    }
}

/// The number at the front of a text, if it begins with a digit, and what stands behind it.
pub(crate) fn number_at(alloc: Global, text: &str) -> Result<Option<(u64, &str)>, LoadFault>
    ensures value { IfOk result (λ found. IfSome found (λ p. (depth : ℕ) →
        parse.val depth text.now ≡ Some (integer (pos p.0), p.1.now))) }
    ensures shorter { IfOk result (λ found. IfSome found (λ p. length p.1.now < length text.now)) }
    ensures memory { IfErr result (λ e. e ≡ Memory) }
{
    if !first(text).is_ascii_digit() {
        return Ok(None);
    }
    let Some((Scalar::Integer(integer), after)) = plain(unquoted(alloc, text))? else {
        return Ok(None);
    };
    let Some(number) = natural(integer) else {
        return Ok(None);
    };
    Ok(Some((number, after)))
}

/// The string at the front of a text, and what stands behind it.
pub(crate) fn string_at(alloc: Global, text: &str) -> Result<Option<(String, &str)>, LoadFault>
    ensures value { IfOk result (λ found. IfSome found (λ p. (depth : ℕ) →
        parse.val depth text.now ≡ Some (string (string_bytes p.0), p.1.now))) }
    ensures shorter { IfOk result (λ found. IfSome found (λ p. length p.1.now < length text.now)) }
    ensures memory { IfErr result (λ e. e ≡ Memory) }
{
    if !starts_string(text) {
        return Ok(None);
    }
    let Some((string, after)) = plain(quoted(alloc, text))? else {
        return Ok(None);
    };
    Ok(Some((string, after)))
}
