//! The data of a page, which its script reads.

use crate::details::{Detail, details_of};
use crate::escape::script_json;
use eevdf_clocks::Moment;
use eevdf_scene::{Scene, Stretch};
use serde::Serialize;
use serde_json::to_vec;
use std::alloc::{AllocError, Global};

/// A stretch with all that is known of it. Times are in nanoseconds, and lags in those of virtual time.
#[derive(Drop, Serialize)]
struct Row {
    cpu: u64,
    task: u64,
    begin_ns: u64,
    end_ns: u64,
    waited_ns: u64,
    #[serde(skip_serializing_if = "Option::is_none")]
    delay_ns: Option<u64>,
    why: &'static str,
    ticks: u64,
    /// The last tick, and its answer.
    deed: String,
    answer: String,
    /// Before the first tick.
    #[serde(skip_serializing_if = "Option::is_none")]
    lag_before: Option<i64>,
    /// After the last one.
    #[serde(skip_serializing_if = "Option::is_none")]
    lag_after: Option<i64>,
    #[serde(skip_serializing_if = "Option::is_none")]
    woken_from: Option<u64>,
}

#[derive(Drop, Serialize)]
struct Data<'a> {
    file: Option<&'a str>,
    cpus: usize,
    tasks: usize,
    from_ns: u64,
    to_ns: u64,
    left_out: usize,
    stretches: Vec<Row>,
}

/// The data of the stretches at these places, of which so many are left out, as the JSON of a script.
pub(crate) fn data_of(
    alloc: Global,
    scene: &Scene<'_>,
    file: Option<&str>,
    places: &[usize],
    left_out: usize,
) -> Result<Vec<u8>, AllocError> {
    let data = Data {
        file,
        cpus: scene.setup.cpus(),
        tasks: scene.setup.tasks(),
        from_ns: scene.scale.from,
        to_ns: scene.scale.to,
        left_out,
        stretches: rows_of(alloc, scene, places)?,
    };
    // only memory can be missing
    let Ok(json) = to_vec(alloc, &data) else {
        return Err(AllocError);
    };
    script_json(alloc, &json)
}

fn rows_of(alloc: Global, scene: &Scene<'_>, places: &[usize]) -> Result<Vec<Row>, AllocError> {
    let stretches = &scene.turns.stretches;
    let details = details_of(alloc, scene.setup, scene.moments, stretches)?;
    let mut rows = Vec::with_capacity(alloc, places.len())?;
    for place in places {
        if let (Some(stretch), Some(detail)) = (stretches.get(*place), details.get(*place)) {
            if let Some(last) = scene.moments.get(stretch.last) {
                rows.push(row_of(alloc, scene, stretch, detail, last)?)?;
            }
        }
    }
    Ok(rows)
}

/// The row of a stretch whose last tick this is.
fn row_of(
    alloc: Global,
    scene: &Scene<'_>,
    stretch: &Stretch,
    detail: &Detail,
    last: &Moment,
) -> Result<Row, AllocError> {
    let after = scene.lags.after.get(stretch.last);
    Ok(Row {
        cpu: stretch.cpu.get(),
        task: stretch.task.get(),
        begin_ns: stretch.begin,
        end_ns: stretch.end,
        waited_ns: stretch.waited,
        delay_ns: stretch.delay,
        why: stretch.stop.word(),
        ticks: detail.ticks,
        deed: format!(in alloc; "{}", last.line.deed)?,
        answer: format!(in alloc; "{}", last.line.answer)?,
        lag_before: scene.lags.before.get(detail.first).copied().flatten(),
        lag_after: after.and_then(|after| after.lag),
        woken_from: detail.woken_from.map(|cpu| cpu.get()),
    })
}
