//! The lines of a schedule, pushed a block at a time.

ghost use Rattle.std.specs.Prelude.{◌≡◌, ◌≤◌, ◌++◌, length, map, OnOk};
ghost use Rattle.eevdf_report.specs.BlockText.{block_lines};
ghost use Rattle.eevdf_report.specs.TextSchedules.{schedule_lines};

use crate::block_text::BlockText;
use crate::text_deeds::prepend_schedule_line;
use eevdf_ops::Line;
use std::alloc::AllocError;

/// Writes a schedule.
pub(crate) fn push_schedule(text: &mut Vec<u8>, lines: &[&Line]) -> Result<(), AllocError>
    ensures { OnOk result (text.new.items ≡ text.old.items ++ schedule_lines (map (λ l. l.now) lines.now)) }
{
    let mut block = BlockText::new();
    let mut done = 0;
    while done < lines.len() {
        let end = lines.len().min(done + BlockText::LINES);
        write_block(&mut block, &lines[done..end]);
        text.extend_from_slice(block.as_bytes())?;
        done = end;
    }
    Ok(())
}

/// Writes a few lines of a schedule, the last one first.
fn write_block(text: &mut BlockText, lines: &[&Line])
    requires { length lines.now ≤ block_lines }
    ensures { text.new ≡ schedule_lines (map (λ l. l.now) lines.now) }
{
    text.clear();
    for at in (0..lines.len()).rev() {
        prepend_schedule_line(text, *lines[at]);
    }
}
