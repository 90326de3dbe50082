ghost use Rattle.std.specs.Prelude.{◌≡◌, ◌<◌, ◌+◌, ◌*◌, length, map, [], slice_index_or, vec_len};

use crate::deeds::Line;
use eevdf_queue::{Queue, TaskId};
use std::marker::Model;

/// What a run comes to: its history, the queues that it leaves, and the requests that were posted and not
/// drained.
#[derive(Drop)]
pub struct Outcome {
    lines: Vec<Line>,
    queues: Vec<Queue>,
    left: Vec<Vec<TaskId>>,
}

impl Model for Outcome {
    ghost use Rattle.std.specs.Prelude.{◌≡◌, ◌*◌, length, map};
    ghost use Rattle.eevdf_ops.specs.Outcome as outcome;
    ghost use Rattle.std.specs.Coded.{codes};
    ghost use Rattle.eevdf_queue.specs.Codes.{view_code};

    ghost Value = { outcome.Outcome };

    ghost coded = { Prim.hlevel (codes, view_code) };

    ghost view = { λ o. record {
      lines = o.lines.items;
      queues = o.queues.items;
      left = map (λ l. l.items) o.left.items;
    } };

    ghost invariant = { λ o. length o.left.items ≡ length o.queues.items * length o.queues.items };
}

impl Outcome {
    /// The outcome of these lines in order, these queues by CPU, and these lists of requests: of `n` CPUs
    /// the list from sender `q` to home `c` stands at place `q * n + c`.
    pub fn of(lines: Vec<Line>, queues: Vec<Queue>, left: Vec<Vec<TaskId>>) -> Outcome
        requires { vec_len left ≡ vec_len queues * vec_len queues }
        ensures lines { result.lines ≡ lines.items }
        ensures queues { result.queues ≡ queues.items }
        ensures left { result.left ≡ map (λ l. l.items) left.items }
    {
        Outcome {
            lines,
            queues,
            left,
        }
    }

    /// The number of CPUs.
    pub fn cpus(&self) -> usize
        ensures { result ≡ length self.now.queues }
    {
        self.queues.len()
    }

    /// The deeds with their answers, in the order in which they were done.
    pub fn history(&self) -> &[Line]
        ensures { result.now ≡ self.now.lines }
    {
        &self.lines
    }

    /// The queue of a CPU.
    pub fn queue(&self, cpu: usize) -> &Queue
        requires { cpu < length self.now.queues }
        ensures { result.now ≡ slice_index_or self.now.queues cpu result.now }
    {
        &self.queues[cpu]
    }

    /// The requests that a sender posted to a home and that weren't drained, oldest first.
    pub fn left(&self, sender: usize, home: usize) -> &[TaskId]
        requires sender { sender < length self.now.queues }
        requires home { home < length self.now.queues }
        ensures { result.now
            ≡ slice_index_or self.now.left (sender * length self.now.queues + home) [] }
    {
        &self.left[sender * self.cpus() + home]
    }
}
