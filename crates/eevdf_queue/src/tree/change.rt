ghost use Rattle.std.specs.Prelude.{◌≡◌, true, false};
ghost use Rattle.eevdf_queue.specs.TreeChanges.{keeps_height, keeps_least};

/// What may have changed of a tree that a task has left, as far as the nodes above it have to know.
#[derive(Clone, Copy)]
pub enum TreeChange {
    Nothing,
    LeastAlone,
    Height,
}

impl TreeChange {
    /// Of a tree whose least virtual runtime alone may be another than before.
    pub fn of_least(other_least: bool) -> TreeChange
        ensures height { keeps_height result ≡ true }
        ensures least { keeps_least result ≡ true → other_least ≡ false }
    {
        if other_least {
            TreeChange::LeastAlone
        } else {
            TreeChange::Nothing
        }
    }

    /// Of a tree whose height may be another too.
    pub fn of_both(other_height: bool, other_least: bool) -> TreeChange
        ensures height { keeps_height result ≡ true → other_height ≡ false }
        ensures least { keeps_least result ≡ true → other_least ≡ false }
    {
        if other_height {
            TreeChange::Height
        } else {
            TreeChange::of_least(other_least)
        }
    }

    /// The same, where the least virtual runtime is another in any case.
    pub fn with_least(self) -> TreeChange
        ensures height { keeps_height result ≡ true → keeps_height self ≡ true }
        ensures least { keeps_least result ≡ false }
    {
        match self {
            TreeChange::Height => TreeChange::Height,
            _ => TreeChange::LeastAlone,
        }
    }
}
