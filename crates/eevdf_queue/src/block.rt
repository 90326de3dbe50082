use crate::room::Room;
use crate::spot::Spot;
use crate::tree::node::TreeNode;
use std::alloc::Global;
use std::marker::Model;
use std::mem::{align_of, replace, size_of};

/// A block of the caller's own memory in which a task can be kept, or none. Contracts see whether there is one.
///
/// As it lies in memory it is a pointer, which is null where there is none. A block isn't `Drop`, so none is lost.
#[repr(C)]
pub struct Block {
    spot: Spot<TreeNode>,
}

impl Model for Block {
    ghost use Rattle.std.specs.Prelude.{Bool};
    ghost use Rattle.eevdf_queue.specs.Spare.{is_block};

    ghost Value = { Bool };

    ghost view = { λ b. is_block b.spot.at };
}

impl Block {
    ghost use Rattle.std.specs.Prelude.{◌≡◌, is_some, true, false};

    /// No block.
    pub fn none() -> Block
        ensures { result ≡ false }
    {
        Block { spot: Spot::none() }
    }

    /// Takes the block away, if there is one.
    pub(crate) fn take(&mut self, alloc: Global) -> Option<Room<TreeNode, Global>>
        ensures room { is_some result ≡ self.old }
        ensures after { self.new ≡ false }
    {
        let Block { spot } = replace(self, Block::none());
        spot.into_room(alloc)
    }

    /// Puts a block where there is none.
    pub(crate) fn put(&mut self, room: Room<TreeNode, Global>)
        requires { self.old ≡ false }
        ensures { self.new ≡ true }
    {
        let Block { spot } = replace(
            self,
            Block {
                spot: Spot::of(room),
            },
        );
        spot.leave();
    }

    /// Whether there is a block.
    pub fn is_some(&mut self, alloc: Global) -> bool
        ensures answer { result ≡ self.old }
        ensures after { self.new ≡ self.old }
    {
        match self.take(alloc) {
            Some(room) => {
                self.put(room);
                true
            }
            None => false,
        }
    }
}

// the bytes that the header for C gives a block, and those of the memory that it leads to
const _: () = prove!(size_of::<Block>() == 8 && align_of::<Block>() == 8);

const _: () = prove!(size_of::<TreeNode>() == 152 && align_of::<TreeNode>() == 8);
