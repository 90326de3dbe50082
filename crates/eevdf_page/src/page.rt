//! The whole page, part by part.

use crate::data::data_of;
use crate::escape::html_of;
use crate::head::{AFTER_DATA, AFTER_TITLE, BEFORE_DATA, BEFORE_TITLE, END, KEYS, PICTURE};
use crate::notes::push_notes;
use crate::script::SCRIPT;
use crate::table::push_table;
use eevdf_picture::picture_of;
use eevdf_scene::{Scene, chosen_places};
use std::alloc::{AllocError, Global};

/// So many stretches are told and listed at most: the first of those that are chosen.
const MOST_LISTED: usize = 5000;

/// The page of a scene, whose lags have what is known before and after each deed, with these figures, as tables of HTML, and the name of the file
/// that it is of, where it is of one. It is refused memory alone.
pub fn page_of(
    alloc: Global,
    scene: &Scene<'_>,
    file: Option<&str>,
    figures: &[u8],
) -> Result<Vec<u8>, AllocError> {
    let mut places = chosen_places(alloc, &scene.turns.stretches, &scene.scale, scene.view)?;
    let left_out = places.len().saturating_sub(MOST_LISTED);
    places.truncate(MOST_LISTED);
    let mut page = Vec::new(alloc);
    page.extend_from_slice(&head_of(alloc, file)?)?;
    page.extend_from_slice(&picture_of(alloc, scene)?)?;
    page.extend_from_slice(lists_of(alloc, scene, &places, left_out)?.as_bytes())?;
    page.extend_from_slice(figures)?;
    page.extend_from_slice(b"</div>\n")?;
    page.extend_from_slice(BEFORE_DATA.as_bytes())?;
    page.extend_from_slice(&data_of(alloc, scene, file, &places, left_out)?)?;
    page.extend_from_slice(AFTER_DATA.as_bytes())?;
    page.extend_from_slice(SCRIPT.as_bytes())?;
    page.extend_from_slice(END.as_bytes())?;
    Ok(page)
}

/// What stands before the picture.
fn head_of(alloc: Global, file: Option<&str>) -> Result<Vec<u8>, AllocError> {
    let title = title_of(alloc, file)?;
    let mut text = Vec::new(alloc);
    text.extend_from_slice(BEFORE_TITLE.as_bytes())?;
    text.extend_from_slice(&title)?;
    text.extend_from_slice(AFTER_TITLE.as_bytes())?;
    text.extend_from_slice(b"<h1>")?;
    text.extend_from_slice(&title)?;
    text.extend_from_slice(b"</h1>\n")?;
    text.extend_from_slice(KEYS.as_bytes())?;
    text.extend_from_slice(PICTURE.as_bytes())?;
    Ok(text)
}

fn title_of(alloc: Global, file: Option<&str>) -> Result<Vec<u8>, AllocError> {
    let mut title = Vec::new(alloc);
    match file {
        None => title.extend_from_slice(b"A schedule")?,
        Some(file) => {
            title.extend_from_slice(b"The schedule of ")?;
            title.extend_from_slice(&html_of(alloc, file.as_bytes())?)?;
        }
    }
    Ok(title)
}

/// What stands between the picture and the figures.
fn lists_of(
    alloc: Global,
    scene: &Scene<'_>,
    places: &[usize],
    left_out: usize,
) -> Result<String, AllocError> {
    let mut text = String::from_str(
        alloc,
        "</section>\n<dl id=\"told\" aria-live=\"polite\"><dt>here</dt><dd>nothing is told yet</dd></dl>\n",
    )?;
    text.push_str("<h2>What is shown</h2>\n")?;
    push_notes(&mut text, scene, places.len(), left_out)?;
    text.push_str("<h2>The stretches</h2>\n")?;
    push_table(alloc, &mut text, &scene.turns.stretches, places)?;
    text.push_str("<h2>The figures</h2>\n<div class=\"wide\" id=\"figures\">\n")?;
    Ok(text)
}
