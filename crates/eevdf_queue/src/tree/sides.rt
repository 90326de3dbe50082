ghost use Rattle.std.specs.Prelude.{◌≡◌};
ghost use Rattle.std.specs.Borrow.{sem};
ghost use Rattle.eevdf_queue.specs.Sides.{LendsSide, on_side};

/// One of two sides.
#[derive(Clone, Copy)]
pub enum Side {
    Right,
    Left,
}

/// What stands on the two sides of a task. It is generic so that a node, which has its sides by value, refers to no other
/// type that refers to it. The right side comes first here and in `Side`: then LLVM finds the address of a side by adding.
#[derive(Drop)]
pub struct Sides<L> {
    pub right: L,
    pub left: L,
}

impl<L> Sides<L> {
    /// What stands on a side. As LLVM compiles it, this takes no branch, which would often be mispredicted on the way to a
    /// task.
    #[inline(always)]
    pub fn side_mut(&mut self, side: Side) -> &mut L
        ensures* writes_back { sem 𝓛 (LendsSide L.row self.entry side result) }
        ensures value { result.now ≡ on_side self.old side }
    {
        match side {
            Side::Left => &mut self.left,
            Side::Right => &mut self.right,
        }
    }
}
