ghost use Rattle.std.specs.Prelude.{◌≡◌, codes, option_and_then};
ghost use Rattle.std.specs.Str.{bytes_eq};
ghost use Rattle.eevdf_ops.specs.Programs.{deed_of};
ghost use Rattle.eevdf_workload.specs.Words.{deed_in, deed_on, operation_of, sender_of, wake_of, words};

use crate::reading::argument_words::only_cpu;
use crate::reading::operation_text::operation_of;
use crate::reading::word_list::Words;
use crate::version::Limits;
use eevdf_ops::{CpuId, Deed};
use eevdf_queue::TaskId;

/// The deed that a text is: the number of a CPU, and what it does.
#[tactic(auto, unfolding(crate::specs::Words::deed_in))]
pub(crate) fn deed(limits: Limits, text: &str) -> Option<Deed>
    ensures { result ≡ deed_in limits (words text.now) }
{
    let mut words = Words::new(text.as_bytes());
    let cpu = limits.cpu(words.next_number()?)?;
    deed_on(limits, cpu, words)
}

fn deed_on(limits: Limits, cpu: CpuId, mut words: Words) -> Option<Deed>
    ensures { result ≡ deed_on limits cpu words.entry }
{
    let verb = words.next()?;
    if is_wake(verb) {
        wake(limits, cpu, words)
    } else {
        of_operation(limits, cpu, verb, words)
    }
}

fn is_wake(verb: &[u8]) -> bool
    ensures { result ≡ bytes_eq verb.now (codes "wake") }
{
    matches!(verb, b"wake")
}

// The deed that the operation with these words is.
fn of_operation(limits: Limits, cpu: CpuId, verb: &[u8], arguments: Words) -> Option<Deed>
    ensures { result
        ≡ option_and_then (deed_of cpu) (operation_of limits verb.now arguments.entry) }
{
    operation_of(limits, verb, arguments)?.on(cpu)
}

fn wake(limits: Limits, cpu: CpuId, mut arguments: Words) -> Option<Deed>
    ensures { result ≡ wake_of limits cpu arguments.entry }
{
    let task = TaskId::new(arguments.next_number()?)?;
    let sender = sender(limits, arguments)?;
    Some(Deed::Wake { cpu, task, sender })
}

// The CPU that stands after `from`.
fn sender(limits: Limits, mut words: Words) -> Option<CpuId>
    ensures { result ≡ sender_of limits words.entry }
{
    match words.next()? {
        b"from" => only_cpu(limits, words),
        _ => None,
    }
}
