//! What stands around the rows of a race: the page, its head, its styles and the axis of places.

use crate::race::Places;
use crate::steps::Race;
use eevdf_ops::{CpuId, Setup};
use eevdf_scene::{Tenths, part, set_at};
use std::alloc::{AllocError, Global};

/// The left edge of the rows, in units of the picture. To its left are the names of callers, and the lines of the history.
pub(crate) const LEFT: u64 = 360;

/// How high the box of a step is, in units.
pub(crate) const STEP: u64 = 64;

/// How far the top of a row is from the next one's, in units.
const PITCH: u64 = 76;

/// The top of the first row.
const TOP: u64 = 108;

/// How far a line of the history is below the one before it.
pub(crate) const LINE: u64 = 16;

/// From the bottom of the last row to the first line of the history, where its heading is, and below the last line.
pub(crate) const HEADING: u64 = 44;

const FOOT: u64 = 16;

/// How wide a picture is at least, and the margin on its right.
const LEAST_WIDTH: u64 = 1000;

const MARGIN: u64 = 20;

/// How wide the box of a step is, in tenths: as wide as the least width allows, between these.
const NARROWEST: u64 = 120;

const WIDEST: u64 = 240;

const RULES: &str = "<style>
.w{fill:#fff}
text{font-size:12px;fill:#000}
.h{font-size:15px}
.a{font-size:11px;text-anchor:middle}
.d{font-size:11px}
.i{font-size:10px;pointer-events:none}
.f{fill:#fff}
.l{fill:#ddd;stroke:#888;stroke-width:.5}
.b{stroke:#000;stroke-width:.5}
.x{fill:#fff}
.j{fill:#56b4e9}
.o{fill:#f0e442}
.c{fill:#000}
.g{stroke:#ccc;stroke-width:1}
.k{fill:none;stroke:#000;stroke-width:.8;marker-end:url(#point)}
</style>
<defs>
<marker id=\"point\" viewBox=\"0 0 6 6\" refX=\"5\" refY=\"3\" markerWidth=\"6\" markerHeight=\"6\" orient=\"auto\">\
<path d=\"M0 0L6 3L0 6Z\"/></marker>
</defs>
";

/// What is drawn, as the head of the picture says.
const HEAD: &str = "whose step came when, and the one thread's history that it equals";

/// The kinds of steps, as the legend has them.
const KEYS: &str =
    "<rect class=\"b x\" x=\"10\" y=\"52\" width=\"12\" height=\"12\"/><text class=\"s\" x=\"27\" y=\"62\">a lock</text>
<rect class=\"b j\" x=\"90\" y=\"52\" width=\"12\" height=\"12\"/><text class=\"s\" x=\"107\" y=\"62\">work under locks</text>
<rect class=\"b o\" x=\"230\" y=\"52\" width=\"12\" height=\"12\"/><text class=\"s\" x=\"247\" y=\"62\">a post</text>
<rect class=\"b c\" x=\"310\" y=\"52\" width=\"12\" height=\"12\"/><text class=\"s\" x=\"327\" y=\"62\">a commit</text>
<rect class=\"l\" x=\"410\" y=\"52\" width=\"12\" height=\"12\"/>\
<text class=\"s\" x=\"427\" y=\"62\">an operation, from its first step to its last one</text>
";

/// Where all of a race stands.
#[derive(Drop)]
pub(crate) struct Frame {
    pub places: Places,
    /// How many places the order has.
    all: usize,
    cpus: usize,
    // of each caller, where it does something at these places
    tops: Vec<Option<u64>>,
    /// How many callers do.
    callers: u64,
    /// How many lines of the history are added at these places.
    lines: u64,
    /// How wide the box of a step is, in tenths.
    pub step: u64,
}

impl Frame {
    /// The frame of these places of an order that has so many.
    pub(crate) fn of(
        alloc: Global,
        setup: &Setup,
        race: &Race,
        places: Places,
        all: usize,
    ) -> Result<Frame, AllocError> {
        let mut takes_part = vec![in alloc; false; setup.cpus()]?;
        let mut lines = 0u64;
        for step in &race.steps {
            set_at(&mut takes_part, step.caller.index(), true);
            if step.line.is_some() {
                lines = lines.saturating_add(1);
            }
        }
        let mut tops = Vec::new(alloc);
        let mut callers = 0u64;
        for part in &takes_part {
            if *part {
                tops.push(Some(callers.saturating_mul(PITCH).saturating_add(TOP)))?;
                callers = callers.saturating_add(1);
            } else {
                tops.push(None)?;
            }
        }
        let room = 10 * (LEAST_WIDTH - LEFT - MARGIN);
        Ok(Frame {
            places,
            all,
            cpus: setup.cpus(),
            tops,
            callers,
            lines,
            step: part(room, 1, places.count() as u64).clamp(NARROWEST, WIDEST),
        })
    }

    /// The top of a caller's row, where it has one.
    pub(crate) fn top(&self, caller: CpuId) -> Option<u64> {
        self.tops.get(caller.index()).copied().flatten()
    }

    /// The left edge of the box at a place, at an edge of the rows where it isn't drawn.
    pub(crate) fn left(&self, place: usize) -> Tenths {
        let since = place.min(self.places.to).saturating_sub(self.places.from) as u64;
        Tenths(since.saturating_mul(self.step).saturating_add(10 * LEFT))
    }

    /// The bottom of the last row.
    pub(crate) fn bottom(&self) -> u64 {
        self.callers.saturating_mul(PITCH).saturating_add(TOP)
    }

    fn width(&self) -> u64 {
        let right = self.left(self.places.to).0 / 10;
        right.saturating_add(MARGIN).max(LEAST_WIDTH)
    }

    fn height(&self) -> u64 {
        let lines = self.lines.saturating_mul(LINE);
        self.bottom()
            .saturating_add(HEADING + FOOT)
            .saturating_add(lines)
    }
}

/// Writes the head of the picture, its legend, its axis and the names of the rows.
pub(crate) fn push_frame(text: &mut String, frame: &Frame, lines: usize) -> Result<(), AllocError> {
    let (width, height) = (frame.width(), frame.height());
    let (cpus, all) = (frame.cpus, frame.all);
    write!(
        text,
        "<svg xmlns=\"http://www.w3.org/2000/svg\" viewBox=\"0 0 {width} {height}\" width=\"{width}\" height=\"{height}\" "
    )?;
    writeln!(
        text,
        "style=\"max-width:100%;height:auto\" font-family=\"sans-serif\">"
    )?;
    let callers = if cpus == 1 { "caller" } else { "callers" };
    writeln!(text, "<title>A race of {cpus} {callers}</title>")?;
    text.push_str(RULES)?;
    writeln!(
        text,
        "<rect class=\"w\" width=\"{width}\" height=\"{height}\"/>"
    )?;
    writeln!(
        text,
        "<text class=\"h\" x=\"10\" y=\"22\">Callers {cpus}, steps {all}, lines {lines}: {HEAD}</text>"
    )?;
    push_note(text, frame)?;
    text.push_str(KEYS)?;
    push_axis(text, frame)?;
    for (caller, top) in frame.tops.iter().enumerate() {
        if let Some(top) = top {
            let base = top.saturating_add(STEP / 2 + 4);
            writeln!(
                text,
                "<text class=\"n\" x=\"300\" y=\"{base}\">CPU {caller}</text>"
            )?;
        }
    }
    Ok(())
}

/// Says which places and callers are left out.
fn push_note(text: &mut String, frame: &Frame) -> Result<(), AllocError> {
    let (from, to, all) = (frame.places.from, frame.places.to, frame.all);
    let still = (frame.cpus as u64).saturating_sub(frame.callers);
    if frame.places.count() == all && still == 0 {
        return Ok(());
    }
    write!(text, "<text class=\"s\" x=\"10\" y=\"40\">")?;
    if frame.places.count() < all {
        write!(
            text,
            "Of the {all} places those from {from} on and before {to} are drawn; --from and --to choose others. "
        )?;
    }
    if still > 0 {
        let callers = if still == 1 {
            "caller has"
        } else {
            "callers have"
        };
        write!(text, "{still} {callers} no step here.")?;
    }
    writeln!(text, "</text>")
}

/// Writes the numbers of the places, of each fifth one.
fn push_axis(text: &mut String, frame: &Frame) -> Result<(), AllocError> {
    let bottom = frame.bottom();
    for place in frame.places.from..frame.places.to {
        if place % 5 == 0 {
            let left = frame.left(place);
            let middle = Tenths(left.0.saturating_add(frame.step / 2));
            writeln!(
                text,
                "<path class=\"g\" d=\"M{middle} 92V{bottom}\"/><text class=\"a\" x=\"{middle}\" y=\"88\">{place}</text>"
            )?;
        }
    }
    Ok(())
}
