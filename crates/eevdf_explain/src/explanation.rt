//! Why a workload is refused, and where in its text.

ghost use Rattle.std.specs.Prelude.{◌≡◌, ◌≤◌, IfOk, IfSome, Some, Ok, true};
ghost use Rattle.eevdf_workload.specs.Meaning.{document_of};
ghost use Rattle.eevdf_explain.specs.Places as spec;
ghost use Rattle.toml.specs.View.{view};

use crate::machine::Machine;
use crate::member_places::{behind_header, header_of, place_of};
use crate::name_places::{name_of, name_place};
use crate::positions::position;
use crate::reason::Reason;
use crate::tokens::Place;
use crate::value_faults::{missing, value_fault};
use crate::written::{value_at, writes};
use eevdf_ops::SetupFault;
use eevdf_queue::TaskId;
use eevdf_workload::{Key, LoadFault, document_of};
use std::alloc::{AllocError, Global};
use toml::Value;

/// A place in a text, with its line and its column, both from 1. A column counts characters.
#[derive(Clone, Copy, PartialEq, Eq, Debug)]
pub struct Mark {
    pub place: Place,
    pub line: usize,
    pub column: usize,
}

/// Why a workload is refused, in words, and where, as far as it has a place.
#[derive(Drop)]
pub struct Explanation {
    pub mark: Option<Mark>,
    pub message: String,
}

/// Why the workload that these bytes are is refused with this fault, which reading them gave. It is made after a fault alone: reading
/// costs nothing more for it. `None` where there is no memory.
///
/// A mark lies in the bytes. Where the fault names a member that no header makes, as a deed, an operation or a key of a task, the mark
/// lies in bytes that write such a value as the document has there: one of its type, and where that is a string, an integer or a
/// boolean, the same. Where that is a table or an array that lines of their own make, part by part, as `nice.x = 3` does, the mark is the
/// name of the key. Of a whole list no more is said. A text that is no TOML document is marked where `toml`'s own error says. The words
/// of the message follow from no clause.
pub fn explain(alloc: Global, bytes: &[u8], fault: &LoadFault) -> Option<Explanation>
    ensures marked { IfSome result (λ e. IfSome e.mark (spec.IsMark bytes.now)) }
    ensures member { IfSome result (λ e. IfSome e.mark (λ m.
        IfSome (spec.key_of fault.now) (λ k. spec.IsPlaced bytes.now k m.place))) }
{
    match explained(alloc, bytes, fault) {
        Ok(explanation) => Some(explanation),
        Err(_) => None,
    }
}

fn explained(alloc: Global, bytes: &[u8], fault: &LoadFault) -> Result<Explanation, AllocError>
    ensures marked { IfOk result (λ e. IfSome e.mark (spec.IsMark bytes.now)) }
    ensures member { IfOk result (λ e. IfSome e.mark (λ m.
        IfSome (spec.key_of fault.now) (λ k. spec.IsPlaced bytes.now k m.place))) }
{
    match key_of(fault) {
        Some(key) => of_member(alloc, bytes, fault, key),
        None => of_text(alloc, bytes, fault),
    }
}

/// Where the workload that these bytes are has what stands at a key. `None` where it isn't found, or where there is no memory.
pub fn mark_at(alloc: Global, bytes: &[u8], key: Key) -> Option<Mark>
    ensures marked { IfSome result (spec.IsMark bytes.now) }
    ensures member { IfSome result (λ m. spec.IsPlaced bytes.now key m.place) }
{
    let Ok(document) = document_of(alloc, bytes) else {
        return None;
    };
    let value = value_at(&document, &key)?;
    let whole = Place { start: 0, end: 0 };
    match place_in(alloc, bytes, &key, value, whole) {
        Ok(place) => mark_of(bytes, place),
        Err(_) => None,
    }
}

/// The key that a fault names, if it names one.
fn key_of(fault: &LoadFault) -> Option<Key>
    ensures { result ≡ spec.key_of fault.now }
{
    match fault {
        LoadFault::BadValue { key } => Some(*key),
        LoadFault::Setup(SetupFault::BadCpus) => Some(Key::Programs),
        LoadFault::Setup(SetupFault::BadTasks) => Some(Key::Tasks),
        LoadFault::Setup(SetupFault::BadHome { task }) => Some(Key::Home(*task)),
        LoadFault::Setup(SetupFault::BadStart { task }) => Some(Key::Start(*task)),
        LoadFault::Setup(SetupFault::TooLong { cpu }) => Some(Key::Program(*cpu)),
        LoadFault::Setup(SetupFault::UnknownTask { cpu, at }) => Some(Key::Op(*cpu, *at)),
        LoadFault::Setup(SetupFault::BadPull { cpu, at }) => Some(Key::Op(*cpu, *at)),
        LoadFault::Setup(SetupFault::BadBegin { cpu, at }) => Some(Key::Op(*cpu, *at)),
        LoadFault::TooLarge
        | LoadFault::NotToml
        | LoadFault::Missing { .. }
        | LoadFault::Setup(SetupFault::Memory)
        | LoadFault::Memory => None,
    }
}

/// The explanation of a fault that names a member.
fn of_member(
    alloc: Global,
    bytes: &[u8],
    fault: &LoadFault,
    key: Key,
) -> Result<Explanation, AllocError>
    ensures marked { IfOk result (λ e. IfSome e.mark (spec.IsMark bytes.now)) }
    ensures member { IfOk result (λ e. IfSome e.mark (λ m. spec.IsPlaced bytes.now key m.place)) }
{
    let document = match document_of(alloc, bytes) {
        Ok(document) => document,
        Err(_) => return Err(AllocError),
    };
    let Some(value) = value_at(&document, &key) else {
        return Err(AllocError);
    };
    let wrong = value_fault(alloc, Machine::of(&document), fault, key, value)?;
    let place = place_in(alloc, bytes, &key, value, wrong.word)?;
    Ok(Explanation {
        mark: mark_of(bytes, place),
        message: wrong.reason.to_string(alloc)?,
    })
}

/// The place of a word of the value at a key, or of a whole list.
fn place_in(
    alloc: Global,
    bytes: &[u8],
    key: &Key,
    value: &Value,
    word: Place,
) -> Result<Option<Place>, AllocError>
    ensures lies { IfOk result (λ found. IfSome found (spec.LiesIn bytes.now)) }
    ensures member { IfOk result (λ found. IfSome found (λ place.
        spec.IsPlacedAt bytes.now key.now (view value.now) place)) }
{
    if may_be_header(key) {
        return Ok(list_place(bytes, key));
    }
    match member_place(alloc, bytes, key, value)? {
        Some(member) => Ok(Some(word_in(bytes, member, value, word))),
        None => Ok(named_place(bytes, key, value)),
    }
}

/// The name of a key at which lines of their own may make the value, part by part, where it is found.
fn named_place(bytes: &[u8], key: &Key, value: &Value) -> Option<Place>
    ensures lies { IfSome result (spec.LiesIn bytes.now) }
    ensures named { IfSome result (spec.IsNamed bytes.now key.now (view value.now)) }
{
    if !has_parts(value) {
        return None;
    }
    let place = name_place(bytes, key)?.within(bytes)?;
    let Some(text) = bytes.get(place.start..place.end) else {
        return None;
    };
    if text == name_of(key).as_bytes() {
        Some(place)
    } else {
        None
    }
}

/// Whether a value is a table or an array, which lines of their own may make.
fn has_parts(value: &Value) -> bool
    ensures { result ≡ spec.has_parts (view value.now) }
{
    match value {
        Value::Table(_) | Value::Array(_) => true,
        _ => false,
    }
}

/// Where the value at a key is written, where it is found.
fn member_place(
    alloc: Global,
    bytes: &[u8],
    key: &Key,
    value: &Value,
) -> Result<Option<Place>, AllocError>
    ensures { IfOk result (λ found. IfSome found (λ place.
        (spec.LiesIn bytes.now place) × spec.Writes (spec.at_place place bytes.now) (view value.now))) }
{
    let Some(place) = place_of(bytes, key) else {
        return Ok(None);
    };
    let Some(text) = bytes.get(place.start..place.end) else {
        return Ok(None);
    };
    if writes(alloc, text, value)? {
        Ok(Some(place))
    } else {
        Ok(None)
    }
}

/// The place of a word of the string that is written at a place, where it is written as it is; else the whole place.
fn word_in(bytes: &[u8], member: Place, value: &Value, word: Place) -> Place
    requires { member.start ≤ member.end }
    ensures after { member.start ≤ result.start }
    ensures some { result.start ≤ result.end }
    ensures before { result.end ≤ member.end }
{
    let Some(text) = value.as_str() else {
        return member;
    };
    if word.end == 0 {
        return member;
    }
    let inner = member.start.saturating_add(1);
    let behind = member.end.saturating_sub(1);
    let start = inner.saturating_add(word.start);
    let end = inner.saturating_add(word.end);
    if bytes.get(inner..behind) == Some(text.as_bytes()) && start <= end && end <= member.end {
        Place { start, end }
    } else {
        member
    }
}

/// Whether a header may make what stands at a key, in place of a value.
fn may_be_header(key: &Key) -> bool
    ensures { result ≡ spec.may_be_header key.now }
{
    match key {
        Key::Tasks | Key::Task(_) | Key::Programs | Key::Program(_) | Key::Orders | Key::Scripts =>
            true,
        Key::Version
        | Key::Home(_)
        | Key::Nice(_)
        | Key::Slice(_)
        | Key::Start(_)
        | Key::Asleep(_)
        | Key::Op(..)
        | Key::Order(_)
        | Key::Script(_) => false,
    }
}

/// The value at such a key, its header or its name. Of too many tasks it is the header of the first one too many.
fn list_place(bytes: &[u8], key: &Key) -> Option<Place>
    ensures { IfSome result (spec.LiesIn bytes.now) }
{
    let place = match place_of(bytes, key) {
        Some(place) => place,
        None => match header_at(bytes, key) {
            Some(header) => header,
            None => name_place(bytes, key)?,
        },
    };
    place.within(bytes)
}

fn header_at(bytes: &[u8], key: &Key) -> Option<Place> {
    match key {
        Key::Tasks => match header_of(bytes, "task", TaskId::COUNT) {
            Some(header) => Some(header),
            None => header_of(bytes, "task", 0),
        },
        Key::Programs => header_of(bytes, "program", 0),
        Key::Program(cpu) => header_of(bytes, "program", *cpu),
        Key::Orders => header_of(bytes, "order", 0),
        Key::Scripts => header_of(bytes, "script", 0),
        _ => None,
    }
}

pub(crate) fn mark_of(bytes: &[u8], place: Option<Place>) -> Option<Mark>
    requires { IfSome place (spec.LiesIn bytes.now) }
    ensures mark { IfSome result (spec.IsMark bytes.now) }
    ensures place { IfSome result (λ m. place ≡ Some m.place) }
{
    let place = place?;
    let (line, column) = position(&bytes[..place.start]);
    Some(Mark {
        place,
        line,
        column,
    })
}

/// The explanation of a fault of the whole text.
fn of_text(alloc: Global, bytes: &[u8], fault: &LoadFault) -> Result<Explanation, AllocError>
    ensures marked { IfOk result (λ e. IfSome e.mark (spec.IsMark bytes.now)) }
{
    let (mark, reason) = match fault {
        LoadFault::NotToml => return no_document(alloc, bytes),
        LoadFault::Missing { key } => missing_key(alloc, bytes, *key)?,
        LoadFault::TooLarge => (None, Reason::TooLarge),
        _ => return Err(AllocError),
    };
    Ok(Explanation {
        mark,
        message: reason.to_string(alloc)?,
    })
}

/// What `toml` says of a text that is no document, and where.
fn no_document(alloc: Global, bytes: &[u8]) -> Result<Explanation, AllocError>
    ensures marked { IfOk result (λ e. IfSome e.mark (spec.IsMark bytes.now)) }
{
    let Err(error) = toml::table_from_slice(alloc, bytes) else {
        return Err(AllocError);
    };
    let Some(span) = error.span() else {
        return Err(AllocError);
    };
    let place = Place {
        start: span.start,
        end: span.end,
    };
    Ok(Explanation {
        mark: mark_of(bytes, Some(place)),
        message: error.message().to_string(alloc)?,
    })
}

/// A key that is missing before the first header. Where it stands behind one, that is said.
fn missing_key<'a>(
    alloc: Global,
    bytes: &[u8],
    key: Key,
) -> Result<(Option<Mark>, Reason<'a>), AllocError>
    ensures { IfOk result (λ found. IfSome found.0 (spec.IsMark bytes.now)) }
{
    let name = key.to_string(alloc)?;
    Ok(match misplaced(bytes, name.as_str()) {
        Some(place) => (mark_of(bytes, Some(place)), Reason::BelowHeader { key }),
        None => (None, missing(key)),
    })
}

/// Where a key with this name stands behind a header.
fn misplaced(bytes: &[u8], name: &str) -> Option<Place>
    ensures { IfSome result (spec.LiesIn bytes.now) }
{
    behind_header(bytes, name)?.within(bytes)
}
