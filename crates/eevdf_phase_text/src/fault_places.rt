//! Where in the text of a workload of phases its fault is.

ghost use Rattle.std.specs.Prelude.{◌≤◌, length, IfSome};

use crate::phase_fault::{Key, PhaseFault, Place, Wrong};
use eevdf_text_places::{Step, find};
use std::alloc::{AllocError, Global};
use std::ops::Range;

/// Where in the bytes of a workload of phases the fault is that it is refused with: the value that is wrong, or the key that isn't known.
/// Of a key that is missing, and of what concerns a phase or a task as a whole, it is the phase, or the task or its header. `None` of a
/// fault of the whole text, where the place isn't found, and where there is no memory.
pub fn fault_place(alloc: Global, bytes: &[u8], fault: &PhaseFault) -> Option<Range<usize>>
    ensures order { IfSome result (λ place. place.start ≤ place.end) }
    ensures within { IfSome result (λ place. place.end ≤ length bytes.now) }
{
    let text = std::str::from_utf8(bytes).ok()?;
    let mut way = way_to(alloc, fault.place).ok()?;
    if let Some(key) = key_of(&fault.wrong) {
        way.push(Step::Key(key)).ok()?;
        if let Some(found) = find(alloc, text, &way) {
            let is_unknown = matches!(
                fault.wrong,
                Wrong::UnknownKey { .. } | Wrong::Misplaced { .. }
            );
            return Some(if is_unknown { found.key } else { found.value });
        }
        way.pop();
    }
    Some(find(alloc, text, &way)?.value)
}

/// The way through the document to the table at a place.
fn way_to<'a>(alloc: Global, place: Place) -> Result<Vec<Step<'a>>, AllocError> {
    let mut way = Vec::new(alloc);
    match place {
        Place::Document => {}
        Place::Machine => way.push(Step::Key(Key::Machine.name()))?,
        Place::Task(task) => push_item(&mut way, Key::Task, task)?,
        Place::Phase { task, path } => {
            push_item(&mut way, Key::Task, task)?;
            push_item(&mut way, Key::Phases, path.outermost)?;
            for phase in path.inner() {
                push_item(&mut way, Key::Phases, *phase)?;
            }
        }
    }
    Ok(way)
}

/// Goes to the one at a place of the list at a key.
fn push_item(way: &mut Vec<Step>, key: Key, place: usize) -> Result<(), AllocError> {
    way.push(Step::Key(key.name()))?;
    way.push(Step::Item(place))?;
    Ok(())
}

/// The key at which something is wrong, where it is at one.
fn key_of(wrong: &Wrong) -> Option<&str> {
    match wrong {
        Wrong::Bad(key) | Wrong::BadTime { key, .. } | Wrong::Misplaced { key, .. } => {
            Some(key.name())
        }
        Wrong::UnknownKey { word, nearest: _ } => Some(word.as_str()),
        Wrong::NoTask { .. } => Some(Key::Resume.name()),
        Wrong::SameName(_) => Some(Key::Name.name()),
        Wrong::NoTime => Some(Key::Phases.name()),
        Wrong::NoEnd => Some(Key::Phases.name()),
        _ => None,
    }
}
