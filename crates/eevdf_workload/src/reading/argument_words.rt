ghost use Rattle.std.specs.Prelude.{◌≡◌, option_and_then, option_map};
ghost use Rattle.eevdf_workload.specs.Words.{fitting, only_cpu, only_level, only_number, only_slice, only_task, only_time, only_word};

use crate::reading::level_text::level;
use crate::reading::word_list::Words;
use crate::version::Limits;
use eevdf_ops::CpuId;
use eevdf_queue::TaskId;
use eevdf_weight::{Nice, Ns, Slice};

/// The CPU that the only word numbers.
pub(crate) fn only_cpu(limits: Limits, words: Words) -> Option<CpuId>
    ensures { result ≡ only_cpu limits words.entry }
{
    limits.cpu(only_number(words)?)
}

/// The task that the only word numbers.
pub(crate) fn only_task(words: Words) -> Option<TaskId>
    ensures { result ≡ only_task words.entry }
{
    TaskId::new(only_number(words)?)
}

/// The length of a tick that the only word numbers.
pub(crate) fn only_time(words: Words) -> Option<Ns>
    ensures { result ≡ only_time words.entry }
{
    Ns::new(only_number(words)?)
}

/// The nice level that the only word writes.
pub(crate) fn only_level(words: Words) -> Option<Nice>
    ensures { result ≡ only_level words.entry }
{
    level(only_word(words)?)
}

/// The slice that the only word numbers.
pub(crate) fn only_slice(words: Words) -> Option<Slice>
    ensures { result ≡ only_slice words.entry }
{
    Slice::new(only_number(words)?)
}

// The number that is the only word.
fn only_number(mut words: Words) -> Option<u64>
    ensures { result ≡ option_and_then fitting (only_number words.entry) }
{
    let number = words.next_number()?;
    match words.next() {
        None => Some(number),
        Some(_) => None,
    }
}

// The only word.
fn only_word<'a>(mut words: Words<'a>) -> Option<&'a [u8]>
    ensures { option_map (λ word. word.now) result ≡ only_word words.entry }
{
    let word = words.next()?;
    match words.next() {
        None => Some(word),
        Some(_) => None,
    }
}
