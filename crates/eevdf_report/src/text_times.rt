//! Times in front of lines.

ghost use Rattle.std.specs.Prelude.{◌≡◌, ◌++◌, ◌∷◌, [], replicate, true, if◌then◌else◌, IfOk, OnOk};
ghost use Rattle.eevdf_report.specs.TextTimes.{at_time, before_lines, end_time, time_text, timed_line, timed_schedule};

use crate::block_text::BlockText;
use crate::text_deeds::prepend_schedule_line;
use eevdf_clocks::{Clocks, Moment};
use eevdf_ops::Line;
use itoa::Buffer;
use std::alloc::{AllocError, Global};

/// So many characters a time takes at least, as in the table of `eevdf_timeline`.
const TIME_WIDTH: usize = 16;

/// Writes a number of nanoseconds, to the right in its column, and a space.
#[tactic(auto, unfolding(crate::specs::TextTimes::time_text))]
pub(crate) fn push_time(text: &mut Vec<u8>, time: u64) -> Result<(), AllocError>
    ensures { OnOk result (text.new.items ≡ text.old.items ++ time_text time) }
{
    let mut buffer = Buffer::new();
    let digits = buffer.format(time).as_bytes();
    push_spaces(text, TIME_WIDTH.saturating_sub(digits.len()))?;
    text.extend_from_slice(digits)?;
    text.extend_from_slice(b" ")
}

fn push_spaces(text: &mut Vec<u8>, count: usize) -> Result<(), AllocError>
    ensures { OnOk result (text.new.items ≡ text.old.items ++ replicate count 32) }
{
    for _ in 0..count {
        text.push(b' ')?;
    }
    Ok(())
}

/// Writes whole lines with a time in front of each.
pub(crate) fn push_at_time(
    alloc: Global,
    text: &mut Vec<u8>,
    time: u64,
    lines: &[u8],
) -> Result<(), AllocError>
    ensures { OnOk result (text.new.items ≡ text.old.items ++ at_time time lines.now) }
{
    let mut word = Vec::new(alloc);
    push_time(&mut word, time)?;
    push_before_lines(text, &word, lines)
}

fn push_before_lines(text: &mut Vec<u8>, word: &[u8], lines: &[u8]) -> Result<(), AllocError>
    ensures { OnOk result (text.new.items ≡ text.old.items ++ before_lines word.now true lines.now) }
{
    let mut begins = true;
    let mut left = lines;
    'bytes: while let [byte, after @ ..] = left {
        push_byte(text, word, begins, *byte)?;
        begins = *byte == b'\n';
        left = after;
    }
    Ok(())
}

/// Writes a byte, with the word in front where a line begins.
fn push_byte(text: &mut Vec<u8>, word: &[u8], begins: bool, byte: u8) -> Result<(), AllocError>
    ensures { OnOk result (text.new.items ≡ text.old.items ++ ((if begins then word.now else []) ++ byte ∷ [])) }
{
    if begins {
        text.extend_from_slice(word)?;
    }
    text.push(byte)?;
    Ok(())
}

/// Writes the schedule of a CPU, with its time in front of each line, and gives its clock after all lines of the history.
pub(crate) fn push_timed_schedule(
    alloc: Global,
    text: &mut Vec<u8>,
    lines: &[Line],
    cpu: usize,
) -> Result<u64, AllocError>
    ensures text { OnOk result (text.new.items ≡ text.old.items ++ timed_schedule cpu lines.now) }
    ensures end { IfOk result (λ time. time ≡ end_time cpu lines.now) }
{
    let mut clocks = Clocks::open(alloc)?;
    let mut block = BlockText::new();
    for line in lines {
        let moment = clocks.pass(*line);
        push_timed_line(text, &mut block, &moment, cpu)?;
    }
    Ok(clocks.time(cpu))
}

/// Writes a line with its time, where it is one of this CPU.
fn push_timed_line(
    text: &mut Vec<u8>,
    block: &mut BlockText,
    moment: &Moment,
    cpu: usize,
) -> Result<(), AllocError>
    ensures { OnOk result (text.new.items ≡ text.old.items ++ timed_line cpu moment.now) }
{
    if moment.line.deed.cpu().index() != cpu {
        return Ok(());
    }
    block.clear();
    prepend_schedule_line(block, moment.line);
    push_time(text, moment.begin)?;
    text.extend_from_slice(block.as_bytes())
}
