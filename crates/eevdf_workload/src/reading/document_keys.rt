ghost use Rattle.std.specs.Prelude.{◌≡◌, Ok, Err, Some, None, option_map, MatchResult};
ghost use Rattle.eevdf_workload.specs.Meaning.{version, version_of};
ghost use Rattle.eevdf_workload.specs.MeaningSteps.{array_at, boolean_or, good_at, integer_or, natural};
ghost use Rattle.toml.specs.Data.{as_integer, get_member};
ghost use Rattle.toml.specs.View.{array_view, table_view, view};

use crate::load_fault::{Key, LoadFault};
use crate::version::Version;
use toml::value::Array;
use toml::{Table, Value};

/// The version of a workload.
#[tactic(auto, unfolding(crate::specs::Meaning::version))]
pub fn version(document: &Table) -> Result<Version, LoadFault>
    ensures { result ≡ version (table_view document.now) }
{
    version_of(required(document, "version", Key::Version)?)
}

fn version_of(value: &Value) -> Result<Version, LoadFault>
    ensures { result ≡ version_of (view value.now) }
{
    match value.as_integer() {
        Some(1) => Ok(Version::One),
        Some(2) => Ok(Version::Two),
        Some(3) => Ok(Version::Three),
        Some(4) => Ok(Version::Four),
        _ => Err(LoadFault::BadValue { key: Key::Version }),
    }
}

/// The value that was found, or a bad value at the key.
pub(crate) fn good_at<T>(key: Key, found: Option<T>) -> Result<T, LoadFault>
    ensures { result ≡ good_at key found }
{
    found.ok_or(LoadFault::BadValue { key })
}

/// The value at a key of a table.
pub(crate) fn member<'a>(table: &'a Table, name: &str) -> Option<&'a Value>
    ensures { option_map (λ v. view v.now) result ≡ get_member name.now (table_view table.now) }
{
    table.get(name)
}

/// The value at a key of a table, or a fault where the key is absent.
pub(crate) fn required<'a>(table: &'a Table, name: &str, key: Key) -> Result<&'a Value, LoadFault>
    ensures { MatchResult result
        (λ v. get_member name.now (table_view table.now) ≡ Some (view v.now))
        (λ e. (get_member name.now (table_view table.now) ≡ None) × (e ≡ LoadFault.Missing key)) }
{
    member(table, name).ok_or(LoadFault::Missing { key })
}

/// The integer at a key of a table, or the default where the key is absent.
pub(crate) fn integer_or(table: &Table, name: &str, default: i64) -> Option<i64>
    ensures { result ≡ integer_or default (get_member name.now (table_view table.now)) }
{
    match member(table, name) {
        Some(value) => value.as_integer(),
        None => Some(default),
    }
}

/// The boolean at a key of a table, or the default where the key is absent.
pub(crate) fn boolean_or(table: &Table, name: &str, default: bool) -> Option<bool>
    ensures { result ≡ boolean_or default (get_member name.now (table_view table.now)) }
{
    match member(table, name) {
        Some(value) => value.as_bool(),
        None => Some(default),
    }
}

/// The number, if it is none below 0.
pub(crate) fn natural(number: i64) -> Option<u64>
    ensures { result ≡ natural number }
{
    u64::try_from(number).ok()
}

/// The members of an array, or a bad value at the key where it is none.
pub(crate) fn array_at(value: &Value, key: Key) -> Result<&Array, LoadFault>
    ensures { MatchResult result (λ a. array_at key (view value.now) ≡ Ok (array_view a.now))
        (λ e. array_at key (view value.now) ≡ Err e) }
{
    good_at(key, value.as_array())
}

/// Takes the value at a key out of a table, and drops the rest.
pub(crate) fn into_member(mut table: Table, name: &str) -> Option<Value>
    ensures { option_map (λ v. view v) result ≡ get_member name.now (table_view table) }
{
    table.remove(name)
}

/// As `array_at`, by value.
pub(crate) fn into_array_at(value: Value, key: Key) -> Result<Array, LoadFault>
    ensures { MatchResult result (λ a. array_at key (view value) ≡ Ok (array_view a))
        (λ e. array_at key (view value) ≡ Err e) }
{
    match value {
        Value::Array(members) => Ok(members),
        _ => Err(LoadFault::BadValue { key }),
    }
}

/// The integer that a value is, if it is one. It takes the value, and so frees it in the one case that needs nothing for it.
pub(crate) fn into_integer(value: Value) -> Option<i64>
    ensures { result ≡ as_integer (view value) }
{
    match value {
        Value::Integer(number) => Some(number),
        _ => None,
    }
}
