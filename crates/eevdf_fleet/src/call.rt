use crate::gate::{Gate, OpenGate};
use std::sync::Wait;

/// An operation that is being done: the handle by which its thread may wait, and the gate that is told of it, with the number that it
/// is known by there: its place in the CPU's program.
#[derive(Drop)]
pub(crate) struct Call<'a, R: Wait, G: Gate> {
    pub(crate) rt: &'a R,
    pub(crate) gate: &'a G,
    pub(crate) number: usize,
}

impl<'a, R: Wait> Call<'a, R, OpenGate> {
    /// An operation of no program.
    #[inline(always)]
    pub(crate) fn alone(rt: &'a R) -> Call<'a, R, OpenGate> {
        Call {
            rt,
            gate: &OpenGate,
            number: 0,
        }
    }
}
