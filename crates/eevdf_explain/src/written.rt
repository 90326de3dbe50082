ghost use Rattle.std.specs.Prelude.{◌≡◌, true, option_and_then, option_map, Ok};
ghost use Rattle.eevdf_explain.specs.Places.{Alike, task_member, value_at, Writes};
ghost use Rattle.toml.specs.Data.{at, get, get_member};
ghost use Rattle.toml.specs.View.{table_view, view};

use eevdf_workload::Key;
use std::alloc::{AllocError, Global};
use toml::{Table, Value};

/// The value at a key of a document.
pub(crate) fn value_at<'a>(document: &'a Table, key: &Key) -> Option<&'a Value>
    ensures { option_map (λ v. view v.now) result ≡ value_at key.now (table_view document.now) }
{
    match key {
        Key::Version => member(document, "version"),
        Key::Tasks => member(document, "task"),
        Key::Task(task) => element(member(document, "task"), *task),
        Key::Home(task) => of_task(document, *task, "home"),
        Key::Nice(task) => of_task(document, *task, "nice"),
        Key::Slice(task) => of_task(document, *task, "slice"),
        Key::Start(task) => of_task(document, *task, "start"),
        Key::Asleep(task) => of_task(document, *task, "asleep"),
        Key::Programs => member(document, "program"),
        Key::Program(cpu) => element(member(document, "program"), *cpu),
        Key::Op(cpu, place) => element(element(member(document, "program"), *cpu), *place),
        Key::Orders => member(document, "order"),
        Key::Order(place) => element(member(document, "order"), *place),
        Key::Scripts => member(document, "script"),
        Key::Script(place) => element(member(document, "script"), *place),
    }
}

/// The value at a key of a table.
fn member<'a>(table: &'a Table, name: &str) -> Option<&'a Value>
    ensures { option_map (λ v. view v.now) result ≡ get_member name.now (table_view table.now) }
{
    table.get(name)
}

/// The value at a key of a task.
fn of_task<'a>(document: &'a Table, task: usize, name: &str) -> Option<&'a Value>
    ensures { option_map (λ v. view v.now) result
        ≡ task_member name.now task (table_view document.now) }
{
    entry(element(member(document, "task"), task), name)
}

/// The element with this index, of a value that is an array.
fn element<'a>(array: Option<&'a Value>, index: usize) -> Option<&'a Value>
    ensures { option_map (λ v. view v.now) result
        ≡ option_and_then (at index) (option_map (λ v. view v.now) array.entry) }
{
    match array {
        Some(value) => value.get(index),
        None => None,
    }
}

/// The value at a key, of a value that is a table.
fn entry<'a>(table: Option<&'a Value>, name: &str) -> Option<&'a Value>
    ensures { option_map (λ v. view v.now) result
        ≡ option_and_then (get name.now) (option_map (λ v. view v.now) table.entry) }
{
    match table {
        Some(value) => value.get(name),
        None => None,
    }
}

/// Whether a text writes such a value: one of the same type, and where that is a string, an integer or a boolean, the same. It is
/// `true` only where it does.
pub(crate) fn writes(alloc: Global, text: &[u8], value: &Value) -> Result<bool, AllocError>
    ensures { result ≡ Ok true → Writes text.now (view value.now) }
{
    let Ok(text) = std::str::from_utf8(text) else {
        return Ok(false);
    };
    match Value::from_str(alloc, text) {
        Ok(read) => Ok(is_alike(&read, value)),
        Err(error) if error.is_memory() => Err(AllocError),
        Err(_) => Ok(false),
    }
}

fn is_alike(one: &Value, other: &Value) -> bool
    ensures { result ≡ true → Alike (view one.now) (view other.now) }
{
    one.same_type(other)
        && one.as_str() == other.as_str()
        && one.as_integer() == other.as_integer()
        && one.as_bool() == other.as_bool()
}
