ghost use Rattle.std.specs.Prelude.{◌<◌, ◌≤◌, IfSome};

use std::alloc::Global;
use std::env;
use std::rt::Env;

/// The process's words, of which the first is the program's name. `None` where they can't be read.
pub fn words_of(rt: &(impl Env + AllocGlobal), alloc: Global) -> Option<Vec<String>> {
    let words: Result<Vec<String>, _> = env::args(rt).ok()?.collect(alloc);
    words.ok()
}

/// The number from 1 to `most` that a word gives.
pub fn count_of(word: &str, most: u64) -> Option<u64>
    ensures some { IfSome result (λ n. 0 < n) }
    ensures few { IfSome result (λ n. n ≤ most) }
{
    let number = word.parse::<u64>().ok()?;
    (1..=most).contains(&number).then_some(number)
}
