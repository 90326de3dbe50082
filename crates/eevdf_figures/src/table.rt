//! The figures as text in columns, as tables of HTML, and as JSON.

use crate::rows::{CpuRow, Figures, TaskRow};
use serde_json::to_vec_pretty;
use std::alloc::{AllocError, Global};

/// A column: its heading, and how many letters it has in a text.
type Column = (&'static str, usize);

const TASK_COLUMNS: [Column; 17] = [
    ("task", 4),
    ("ran ns", 16),
    ("share", 6),
    ("weight", 6),
    ("greatest lag ns", 16),
    ("least lag ns", 16),
    ("late ns", 19),
    ("bound ns", 19),
    ("picks", 9),
    ("preempted", 9),
    ("wakes", 9),
    ("mean wake ns", 14),
    ("p99 wake ns", 14),
    ("greatest wake ns", 16),
    ("from ns", 16),
    ("waited ns", 16),
    ("migrations", 10),
];

const CPU_COLUMNS: [Column; 7] = [
    ("cpu", 4),
    ("charged ns", 16),
    ("load", 12),
    ("idle ticks", 10),
    ("idle ns", 16),
    ("pulls in", 9),
    ("pulls out", 9),
];

/// As many as the widest column has.
const SPACES: &str = "                   ";

/// The figures as text: a row for each task and for each CPU. It is refused memory alone.
pub fn table_of(alloc: Global, figures: &Figures) -> Result<Vec<u8>, AllocError> {
    let mut text = String::new(alloc);
    push_headings(&mut text, &TASK_COLUMNS)?;
    for row in &figures.tasks {
        push_row(&mut text, &TASK_COLUMNS, &task_cells(alloc, row)?)?;
    }
    text.push_str("\n")?;
    push_headings(&mut text, &CPU_COLUMNS)?;
    for row in &figures.cpus {
        push_row(&mut text, &CPU_COLUMNS, &cpu_cells(alloc, row)?)?;
    }
    Ok(text.into_bytes())
}

/// The same as two tables of HTML. It is refused memory alone.
pub fn html_of(alloc: Global, figures: &Figures) -> Result<Vec<u8>, AllocError> {
    let mut text = String::new(alloc);
    push_html_head(&mut text, &TASK_COLUMNS)?;
    for row in &figures.tasks {
        push_html_row(&mut text, &task_cells(alloc, row)?)?;
    }
    text.push_str("</tbody></table>\n")?;
    push_html_head(&mut text, &CPU_COLUMNS)?;
    for row in &figures.cpus {
        push_html_row(&mut text, &cpu_cells(alloc, row)?)?;
    }
    text.push_str("</tbody></table>\n")?;
    Ok(text.into_bytes())
}

/// The figures as JSON. It is refused memory alone.
pub fn json_of(alloc: Global, figures: &Figures) -> Result<Vec<u8>, AllocError> {
    // only memory can be missing
    let Ok(mut text) = to_vec_pretty(alloc, figures) else {
        return Err(AllocError);
    };
    text.extend_from_slice(b"\n")?;
    Ok(text)
}

fn push_headings(text: &mut String, columns: &[Column]) -> Result<(), AllocError> {
    for (place, (heading, width)) in columns.iter().enumerate() {
        push_cell(text, place, heading, *width)?;
    }
    text.push_str("\n")
}

fn push_row(text: &mut String, columns: &[Column], cells: &[String]) -> Result<(), AllocError> {
    for (place, (_heading, width)) in columns.iter().enumerate() {
        if let Some(cell) = cells.get(place) {
            push_cell(text, place, cell.as_str(), *width)?;
        }
    }
    text.push_str("\n")
}

/// Writes a cell that ends where its column does.
fn push_cell(text: &mut String, place: usize, cell: &str, width: usize) -> Result<(), AllocError> {
    if place > 0 {
        text.push_str(" ")?;
    }
    if let Some(room) = SPACES.get(..width.saturating_sub(cell.len())) {
        text.push_str(room)?;
    }
    text.push_str(cell)
}

fn push_html_head(text: &mut String, columns: &[Column]) -> Result<(), AllocError> {
    text.push_str("<table>\n<thead><tr>")?;
    for (heading, _width) in columns {
        write!(text, "<th>{heading}</th>")?;
    }
    text.push_str("</tr></thead>\n<tbody>\n")
}

fn push_html_row(text: &mut String, cells: &[String]) -> Result<(), AllocError> {
    text.push_str("<tr>")?;
    for cell in cells {
        write!(text, "<td>{}</td>", cell.as_str())?;
    }
    text.push_str("</tr>\n")
}

fn task_cells(alloc: Global, row: &TaskRow) -> Result<Vec<String>, AllocError> {
    let cells = vec![in alloc;
        number(alloc, Some(row.task))?,
        number(alloc, Some(row.ran_ns))?,
        percent(alloc, row.share_permille)?,
        percent(alloc, row.weight_share_permille)?,
        signed(alloc, row.greatest_lag_ns)?,
        signed(alloc, row.least_lag_ns)?,
        signed(alloc, row.late_ns)?,
        signed(alloc, row.late_bound_ns)?,
        number(alloc, Some(row.picks))?,
        number(alloc, Some(row.preempted))?,
        number(alloc, Some(row.wakes_run))?,
        number(alloc, row.wake_mean_ns)?,
        number(alloc, row.wake_p99_ns)?,
        number(alloc, row.wake_greatest_ns)?,
        number(alloc, row.wake_greatest_from_ns)?,
        number(alloc, Some(row.waited_ns))?,
        number(alloc, Some(row.migrations))?,
    ]?;
    Ok(cells)
}

fn cpu_cells(alloc: Global, row: &CpuRow) -> Result<Vec<String>, AllocError> {
    let cells = vec![in alloc;
        number(alloc, Some(row.cpu))?,
        number(alloc, Some(row.charged_ns))?,
        number(alloc, Some(row.load))?,
        number(alloc, Some(row.idle_ticks))?,
        number(alloc, Some(row.idle_ns))?,
        number(alloc, Some(row.pulls_in))?,
        number(alloc, Some(row.pulls_out))?,
    ]?;
    Ok(cells)
}

fn number(alloc: Global, value: Option<u64>) -> Result<String, AllocError> {
    match value {
        None => String::from_str(alloc, "-"),
        Some(number) => format!(in alloc; "{number}"),
    }
}

fn signed(alloc: Global, value: Option<i64>) -> Result<String, AllocError> {
    match value {
        None => String::from_str(alloc, "-"),
        Some(number) => format!(in alloc; "{number}"),
    }
}

/// Thousandths as a percentage with one digit behind the point.
fn percent(alloc: Global, permille: Option<u64>) -> Result<String, AllocError> {
    let Some(permille) = permille else {
        return String::from_str(alloc, "-");
    };
    let (whole, tenth) = (permille / 10, permille % 10);
    format!(in alloc; "{whole}.{tenth}")
}
