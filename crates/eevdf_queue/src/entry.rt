use eevdf_weight::{Nice, Slice};
use std::fmt;

/// What a queue keeps of a runnable task.
#[derive(Clone, Copy, PartialEq, Eq, Debug)]
pub struct Entry {
    /// The virtual runtime.
    pub v: i64,
    /// The virtual deadline.
    pub d: i64,
    /// The nice level, from which the weight comes.
    pub nice: Nice,
    /// The length of each of its requests.
    pub slice: Slice,
}

/// The runtime, the deadline, the nice level and the slice, each after its noun.
impl fmt::Display for Entry {
    ghost use Rattle.std.specs.Prelude.{Some};
    ghost use Rattle.eevdf_queue.specs.Texts.{entry_text};

    ghost output = { λ entry. Some (entry_text entry) };

    fn fmt<W: fmt::Write>(&self, f: &mut fmt::Formatter<W>) -> fmt::Result {
        write!(
            f,
            "v {} d {} nice {} slice {}",
            self.v, self.d, self.nice, self.slice
        )
    }
}
