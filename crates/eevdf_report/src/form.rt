/// In which form an outcome is reported.
#[derive(Clone, Copy, PartialEq, Eq, Debug)]
pub struct Form {
    /// Whether the history comes behind it, as a script.
    pub history: bool,
    /// Whether each line of a CPU has its time in front.
    pub times: bool,
}

impl Form {
    /// The CPUs alone, without times.
    pub const PLAIN: Form = Form {
        history: false,
        times: false,
    };

    /// The same, and the history behind it.
    pub const WITH_HISTORY: Form = Form {
        history: true,
        times: false,
    };
}
