//! The stretches as a table, with a line for each.

use crate::scale::Scale;
use crate::stretches::Stretch;
use crate::view::View;
use std::alloc::{AllocError, Global};

const HEAD: &str =
    "         time ns  cpu task        waited ns         delay ns           ran ns       why\n";

/// The chosen stretches, in order of time. It is refused memory alone.
pub fn stretch_table_of(
    alloc: Global,
    stretches: &[Stretch],
    scale: &Scale,
    view: &View,
) -> Result<Vec<u8>, AllocError> {
    let mut text = String::from_str(alloc, HEAD)?;
    for place in chosen_places(alloc, stretches, scale, view)?.iter() {
        if let Some(stretch) = stretches.get(*place) {
            push_stretch(alloc, &mut text, stretch)?;
        }
    }
    Ok(text.into_bytes())
}

/// The places of the chosen stretches, in order of time. It is refused memory alone.
pub fn chosen_places(
    alloc: Global,
    stretches: &[Stretch],
    scale: &Scale,
    view: &View,
) -> Result<Vec<usize>, AllocError> {
    let mut begins = Vec::new(alloc);
    for (place, stretch) in stretches.iter().enumerate() {
        if stretch.is_chosen(scale, view) {
            begins.push((stretch.begin, place))?;
        }
    }
    begins.sort()?;
    let mut places = Vec::with_capacity(alloc, begins.len())?;
    for (_begin, place) in &begins {
        places.push(*place)?;
    }
    Ok(places)
}

/// The nanoseconds from the wake before a stretch, or `-` where the task has run since.
pub fn delay_of(alloc: Global, stretch: &Stretch) -> Result<String, AllocError> {
    match stretch.delay {
        None => String::from_str(alloc, "-"),
        Some(delay) => format!(in alloc; "{delay}"),
    }
}

fn push_stretch(alloc: Global, text: &mut String, stretch: &Stretch) -> Result<(), AllocError> {
    let delay = delay_of(alloc, stretch)?;
    let ran = stretch.end.saturating_sub(stretch.begin);
    let why = stretch.stop.word();
    write!(
        text,
        "{:>16} {:>4} {:>4} ",
        stretch.begin,
        stretch.cpu.get(),
        stretch.task.get()
    )?;
    writeln!(
        text,
        "{:>16} {delay:>16} {ran:>16} {why:>9}",
        stretch.waited
    )
}
