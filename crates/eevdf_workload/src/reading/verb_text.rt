ghost use Rattle.std.specs.Prelude.{◌≡◌};
ghost use Rattle.eevdf_workload.specs.Words.{verb_of};

/// What an operation's first word says that is done.
#[derive(Clone, Copy)]
pub(crate) enum Verb {
    Tick,
    Pick,
    Yield,
    Sleep,
    Post,
    Drain,
    Pull,
    Renice,
    Begin,
    End,
    Set,
    Rebase,
    Doze,
}

impl Verb {
    /// The verb that a word writes, or `None` where it writes none.
    pub(crate) fn of(word: &[u8]) -> Option<Verb>
        ensures { result ≡ verb_of word.now }
    {
        match word {
            b"tick" => Some(Verb::Tick),
            b"pick" => Some(Verb::Pick),
            b"yield" => Some(Verb::Yield),
            b"sleep" => Some(Verb::Sleep),
            b"post" => Some(Verb::Post),
            b"drain" => Some(Verb::Drain),
            b"pull" => Some(Verb::Pull),
            b"renice" => Some(Verb::Renice),
            b"begin" => Some(Verb::Begin),
            b"end" => Some(Verb::End),
            b"set" => Some(Verb::Set),
            b"rebase" => Some(Verb::Rebase),
            b"doze" => Some(Verb::Doze),
            _ => None,
        }
    }
}
