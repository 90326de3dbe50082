ghost use Rattle.std.specs.Prelude.{◌≡◌, ◌++◌, OnOk};
ghost use Rattle.eevdf_report.specs.TextReport.{left_line, left_from, cpu_line, script_lines, script_text};

use crate::block_text::BlockText;
use crate::text_deeds::prepend_script_line;
use crate::text_numbers::push_number;
use eevdf_ops::Line;
use eevdf_queue::TaskId;
use std::alloc::AllocError;

pub(crate) fn push_cpu_line(text: &mut Vec<u8>, cpu: usize) -> Result<(), AllocError>
    ensures { OnOk result (text.new.items ≡ text.old.items ++ cpu_line cpu) }
{
    text.extend_from_slice(b"cpu ")?;
    push_number(text, cpu as u64)?;
    text.extend_from_slice(b"\n")
}

fn push_left_line(text: &mut Vec<u8>, sender: usize, task: TaskId) -> Result<(), AllocError>
    ensures { OnOk result (text.new.items ≡ text.old.items ++ left_line sender task) }
{
    text.extend_from_slice(b"left ")?;
    push_number(text, task.get())?;
    text.extend_from_slice(b" from ")?;
    push_number(text, sender as u64)?;
    text.extend_from_slice(b"\n")
}

/// Writes the requests of one sender that weren't drained.
pub(crate) fn push_left(
    text: &mut Vec<u8>,
    sender: usize,
    tasks: &[TaskId],
) -> Result<(), AllocError>
    ensures { OnOk result (text.new.items ≡ text.old.items ++ left_from sender tasks.now) }
{
    for task in tasks {
        push_left_line(text, sender, *task)?;
    }
    Ok(())
}

fn push_script_lines(text: &mut Vec<u8>, lines: &[Line]) -> Result<(), AllocError>
    ensures { OnOk result (text.new.items ≡ text.old.items ++ script_lines lines.now) }
{
    let mut script_line = BlockText::new();
    for line in lines {
        script_line.clear();
        prepend_script_line(&mut script_line, *line);
        text.extend_from_slice(script_line.as_bytes())?;
    }
    Ok(())
}

/// Writes a whole history as a script.
#[tactic(auto, unfolding(crate::specs::TextReport::script_start))]
pub(crate) fn push_script(text: &mut Vec<u8>, lines: &[Line]) -> Result<(), AllocError>
    ensures { OnOk result (text.new.items ≡ text.old.items ++ script_text lines.now) }
{
    text.extend_from_slice(b"script = [\n")?;
    push_script_lines(text, lines)?;
    text.extend_from_slice(b"]\n")
}
