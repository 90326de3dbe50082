//! The table of a page.

use eevdf_scene::{Stretch, delay_of};
use std::alloc::{AllocError, Global};

const HEAD: &str = "<div class=\"wide\"><table id=\"stretches\">
<thead><tr><th>time ns</th><th>cpu</th><th>task</th><th>waited ns</th><th>delay ns</th><th>ran ns</th><th>why</th></tr></thead>
<tbody>
";

/// Writes a row for each of the stretches at these places.
pub(crate) fn push_table(
    alloc: Global,
    page: &mut String,
    stretches: &[Stretch],
    places: &[usize],
) -> Result<(), AllocError> {
    page.push_str(HEAD)?;
    for place in places {
        if let Some(stretch) = stretches.get(*place) {
            push_row(alloc, page, stretch)?;
        }
    }
    page.push_str("</tbody></table></div>\n")
}

fn push_row(alloc: Global, page: &mut String, stretch: &Stretch) -> Result<(), AllocError> {
    let delay = delay_of(alloc, stretch)?;
    let ran = stretch.end.saturating_sub(stretch.begin);
    let why = stretch.stop.word();
    write!(
        page,
        "<tr><td>{}</td><td>{}</td><td>{}</td>",
        stretch.begin,
        stretch.cpu.get(),
        stretch.task.get()
    )?;
    writeln!(
        page,
        "<td>{}</td><td>{delay}</td><td>{ran}</td><td>{why}</td></tr>",
        stretch.waited
    )
}
