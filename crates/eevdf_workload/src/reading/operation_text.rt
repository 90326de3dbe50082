ghost use Rattle.std.specs.Prelude.{◌≡◌};
ghost use Rattle.eevdf_workload.specs.Words.{alone, begin_of, operation, operation_of, renice_of, set_of, task_level_slice, words};

use crate::reading::argument_words::{only_cpu, only_level, only_slice, only_task, only_time};
use crate::reading::level_text::level;
use crate::reading::verb_text::Verb;
use crate::reading::word_list::Words;
use crate::version::Limits;
use eevdf_ops::Op;
use eevdf_queue::TaskId;
use eevdf_weight::{Nice, Slice};

/// The operation that a text is.
#[tactic(auto, unfolding(crate::specs::Words::operation))]
pub(crate) fn operation(limits: Limits, text: &str) -> Option<Op>
    ensures { result ≡ operation limits (words text.now) }
{
    let mut words = Words::new(text.as_bytes());
    let verb = words.next()?;
    operation_of(limits, verb, words)
}

/// The operation that a word names, with the words after it as its arguments.
#[inline(always)]
pub(crate) fn operation_of(limits: Limits, verb: &[u8], arguments: Words) -> Option<Op>
    ensures { result ≡ operation_of limits verb.now arguments.entry }
{
    match Verb::of(verb)? {
        Verb::Tick => Some(Op::Tick(only_time(arguments)?)),
        Verb::Pick => alone(Op::Pick, arguments),
        Verb::Yield => alone(Op::Yield, arguments),
        Verb::Sleep => Some(Op::Sleep(only_task(arguments)?)),
        Verb::Post => Some(Op::Post(only_task(arguments)?)),
        Verb::Drain => alone(Op::Drain, arguments),
        Verb::Pull => Some(Op::Pull(only_cpu(limits, arguments)?)),
        Verb::Renice if limits.renice => renice(arguments),
        Verb::Begin if limits.begin => begin(arguments),
        Verb::End if limits.begin => Some(Op::End(only_task(arguments)?)),
        Verb::Set if limits.begin => set(arguments),
        Verb::Rebase if limits.begin => alone(Op::Rebase, arguments),
        Verb::Doze if limits.doze => Some(Op::Doze(only_task(arguments)?)),
        Verb::Renice | Verb::Begin | Verb::End | Verb::Set | Verb::Rebase | Verb::Doze => None,
    }
}

// The task that the first word numbers gets the level that follows it.
fn renice(mut arguments: Words) -> Option<Op>
    ensures { result ≡ renice_of arguments.entry }
{
    let task = TaskId::new(arguments.next_number()?)?;
    let nice = only_level(arguments)?;
    Some(Op::Renice(task, nice))
}

// The task that the first word numbers begins with the level and the slice that follow it.
fn begin(arguments: Words) -> Option<Op>
    ensures { result ≡ begin_of arguments.entry }
{
    let (task, nice, slice) = task_level_slice(arguments)?;
    Some(Op::Begin(task, nice, slice))
}

// The task that the first word numbers gets the level and the slice that follow it.
fn set(arguments: Words) -> Option<Op>
    ensures { result ≡ set_of arguments.entry }
{
    let (task, nice, slice) = task_level_slice(arguments)?;
    Some(Op::Set(task, nice, slice))
}

// The task that the first word numbers, and the level and the slice that follow it.
fn task_level_slice(mut arguments: Words) -> Option<(TaskId, Nice, Slice)>
    ensures { result ≡ task_level_slice arguments.entry }
{
    let task = TaskId::new(arguments.next_number()?)?;
    let nice = level(arguments.next()?)?;
    let slice = only_slice(arguments)?;
    Some((task, nice, slice))
}

// An operation that nothing follows.
fn alone(op: Op, mut arguments: Words) -> Option<Op>
    ensures { result ≡ alone op arguments.entry }
{
    match arguments.next() {
        None => Some(op),
        Some(_) => None,
    }
}
