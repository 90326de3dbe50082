//! What a page says of itself: what it shows, and what it leaves out.

use eevdf_scene::Scene;
use std::alloc::AllocError;

/// Writes what isn't there, each in a line: other times, CPUs and tasks, and the stretches that are left out.
pub(crate) fn push_notes(
    page: &mut String,
    scene: &Scene<'_>,
    listed: usize,
    left_out: usize,
) -> Result<(), AllocError> {
    page.push_str("<ul id=\"notes\">\n")?;
    push_choice(
        page,
        "CPUs",
        scene.view.cpus.count(scene.setup.cpus()),
        scene.setup.cpus(),
    )?;
    push_choice(
        page,
        "tasks",
        scene.view.tasks.count(scene.setup.tasks()),
        scene.setup.tasks(),
    )?;
    let has_window = scene.view.from > 0 || scene.view.to.is_some();
    if has_window {
        let (from, to) = (scene.scale.from, scene.scale.to);
        writeln!(
            page,
            "<li>The time is that from {from} ns to {to} ns. A stretch that is partly in it is given whole; figures count the part.</li>"
        )?;
    }
    if left_out > 0 {
        let all = listed.saturating_add(left_out);
        writeln!(
            page,
            "<li>Of {all} stretches the first {listed} are told and listed; --from and --to choose others.</li>"
        )?;
    }
    page.push_str(
        "<li>Zoomed, the picture has no more marks, arrows and lags than before; --from and --to draw a part finer.</li>\n",
    )?;
    page.push_str(if has_window {
        "<li>The figures are of that time alone.</li>\n</ul>\n"
    } else {
        "<li>The figures are of the whole time.</li>\n</ul>\n"
    })
}

fn push_choice(page: &mut String, what: &str, chosen: usize, all: usize) -> Result<(), AllocError> {
    if chosen < all {
        let verb = if chosen == 1 { "is" } else { "are" };
        writeln!(page, "<li>Of {all} {what} {chosen} {verb} chosen.</li>")?;
    }
    Ok(())
}
