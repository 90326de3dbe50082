use eevdf_queue::Block;
use std::marker::Model;
use std::mem::{align_of, size_of};

/// A block of memory for one task, or none, as it lies in the caller's memory: a pointer, which is null where there is none.
/// Contracts see whether there is one.
///
/// It isn't `Drop`, so no call loses a block.
pub struct GivenBlock {
    pub(crate) block: Block,
}

impl Model for GivenBlock {
    ghost use Rattle.std.specs.Prelude.{Bool};

    ghost Value = { Bool };

    ghost view = { λ a. a.block };
}

// the bytes that the header for C gives it
const _: () = prove!(size_of::<GivenBlock>() == 8 && align_of::<GivenBlock>() == 8);
