//! What a node is made of, as values without an invariant: so they can be worked on while what is kept isn't right yet.

use crate::task::Task;
use crate::tree::least::Least;
use crate::tree::sides::Sides;

/// A task, and what stands on either side of it.
#[derive(Drop)]
pub struct Parts<L> {
    pub task: Task,
    pub sides: Sides<L>,
}

/// What a node keeps of its subtree.
#[derive(Drop)]
pub struct Kept {
    pub height: u32,
    pub least: Least,
}
