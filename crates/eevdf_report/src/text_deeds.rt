ghost use Rattle.std.specs.Prelude.{◌≡◌, ◌+◌, ◌≤◌, ◌++◌, length, codes, decimal};
ghost use Rattle.std.specs.Fmt.{signed_decimal};
ghost use Rattle.eevdf_report.specs.BlockText.{block_room, most_bytes};
ghost use Rattle.eevdf_report.specs.TextDeed.{deed_text, answer_text, resched_text, schedule_line, script_line};

use crate::block_text::BlockText;
use eevdf_ops::{Answer, Deed, Line};
use eevdf_weight::{Nice, Slice};

/// Writes a deed before the text of a line.
fn prepend_deed(text: &mut BlockText, deed: Deed)
    requires { 69 + length text.old ≤ block_room }
    ensures text { text.new ≡ deed_text deed ++ text.old }
    ensures len { length text.new ≤ 69 + length text.old }
{
    match deed {
        Deed::Tick { ns, .. } => prepend_with_number(text, b"tick ", ns.get()),
        Deed::Pick { .. } => text.prepend(b"pick"),
        Deed::Yield { .. } => text.prepend(b"yield"),
        Deed::Sleep { task, .. } => prepend_with_number(text, b"sleep ", task.get()),
        Deed::Doze { task, .. } => prepend_with_number(text, b"doze ", task.get()),
        Deed::Wake { task, sender, .. } => {
            prepend_with_number(text, b" from ", sender.get());
            prepend_with_number(text, b"wake ", task.get());
        }
        Deed::Pull { source, .. } => prepend_with_number(text, b"pull ", source.get()),
        Deed::Renice { task, nice, .. } => {
            text.prepend_signed(nice.get());
            text.prepend(b" ");
            prepend_with_number(text, b"renice ", task.get());
        }
        Deed::Begin {
            task,
            nice,
            slice,
            ..
        } => {
            prepend_attributes(text, nice, slice);
            prepend_with_number(text, b"begin ", task.get());
        }
        Deed::End { task, .. } => prepend_with_number(text, b"end ", task.get()),
        Deed::Set {
            task,
            nice,
            slice,
            ..
        } => {
            prepend_attributes(text, nice, slice);
            prepend_with_number(text, b"set ", task.get());
        }
        Deed::Rebase { .. } => text.prepend(b"rebase"),
    }
}

/// Writes a nice level and a slice, each after a space.
fn prepend_attributes(text: &mut BlockText, level: Nice, slice: Slice)
    requires { 43 + length text.old ≤ block_room }
    ensures text { text.new ≡ codes " " ++ (signed_decimal level ++ (codes " " ++ (decimal slice ++ text.old))) }
    ensures len { length text.new ≤ 43 + length text.old }
{
    prepend_with_number(text, b" ", slice.get());
    text.prepend_signed(level.get());
    text.prepend(b" ");
}

/// Writes a word with a number after it.
#[inline(always)]
fn prepend_with_number<const N: usize>(text: &mut BlockText, word: &[u8; N], number: u64)
    requires { N + (20 + length text.old) ≤ block_room }
    ensures text { text.new ≡ word.now ++ (decimal number ++ text.old) }
    ensures len { length text.new ≤ N + (20 + length text.old) }
{
    text.prepend_number(number);
    text.prepend(word);
}

fn prepend_resched(text: &mut BlockText, resched: bool)
    requires { 8 + length text.old ≤ block_room }
    ensures text { text.new ≡ resched_text resched ++ text.old }
    ensures len { length text.new ≤ 8 + length text.old }
{
    if resched {
        text.prepend(b" resched");
    }
}

/// Writes an answer before the text of a line.
fn prepend_answer(text: &mut BlockText, answer: Answer)
    requires { 36 + length text.old ≤ block_room }
    ensures text { text.new ≡ answer_text answer ++ text.old }
    ensures len { length text.new ≤ 36 + length text.old }
{
    match answer {
        Answer::Charged { task, resched } => {
            prepend_resched(text, resched);
            prepend_with_number(text, b"charged ", task.get());
        }
        Answer::Picked(task) => prepend_with_number(text, b"picked ", task.get()),
        Answer::Idle => text.prepend(b"idle"),
        Answer::Yielded => text.prepend(b"yielded"),
        Answer::Slept(lag) => {
            text.prepend_signed(lag);
            text.prepend(b"slept ");
        }
        Answer::NotRunning => text.prepend(b"not running"),
        Answer::Woken => text.prepend(b"woken"),
        Answer::Awake => text.prepend(b"awake"),
        Answer::Pulled(task) => prepend_with_number(text, b"pulled ", task.get()),
        Answer::Balanced => text.prepend(b"balanced"),
        Answer::Nothing => text.prepend(b"nothing"),
        Answer::Range => text.prepend(b"range"),
        Answer::Reniced => text.prepend(b"reniced"),
        Answer::NotHere => text.prepend(b"not here"),
        Answer::Begun => text.prepend(b"begun"),
        Answer::Ended => text.prepend(b"ended"),
        Answer::Set => text.prepend(b"set"),
        Answer::Rebased(by) => {
            text.prepend_signed(by);
            text.prepend(b"rebased ");
        }
    }
}

/// Writes a deed with its answer, as a schedule lists it, before the text.
// inline: two loops over lines call it, and neither is to pay for the other
#[inline(always)]
pub(crate) fn prepend_schedule_line(text: &mut BlockText, line: Line)
    requires { most_bytes + length text.old ≤ block_room }
    ensures text { text.new ≡ schedule_line line ++ text.old }
    ensures len { length text.new ≤ most_bytes + length text.old }
{
    text.prepend(b"\n");
    prepend_answer(text, line.answer);
    text.prepend(b": ");
    prepend_deed(text, line.deed);
}

/// Writes a deed as a member of a script, before the text.
pub(crate) fn prepend_script_line(text: &mut BlockText, line: Line)
    requires { most_bytes + length text.old ≤ block_room }
    ensures text { text.new ≡ script_line line ++ text.old }
    ensures len { length text.new ≤ most_bytes + length text.old }
{
    text.prepend(b"\",\n");
    prepend_deed(text, line.deed);
    text.prepend(b" ");
    text.prepend_number(line.deed.cpu().get());
    text.prepend(b"\"");
}
