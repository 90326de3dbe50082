/// What is known of a number at one home.
#[derive(Clone, Copy, PartialEq, Eq, Debug)]
pub enum Slot {
    /// It isn't one of the home's.
    Elsewhere,
    /// No task has it.
    Free,
    /// A task that the setup has awake has it, and its value wasn't taken.
    Begun,
    /// Its value was taken, and hasn't come back.
    Taken,
}
