/// A mix of calls, which one turn makes.
#[derive(Clone, Copy, PartialEq, Eq, Debug)]
pub enum Mix {
    Pick,
    TickPick,
    SleepPickWake,
    YieldPick,
    Pull,
    TickSleepPickWake,
    DozePickWake,
    TickDozePickWake,
    Renice,
    PickPeek,
    TickPeekPick,
    TickPickTimer,
    TickTimerPick,
    TickRebasePick,
    TickPickRebasePick,
}

/// The mixes by their words.
const WORDS: [(&str, Mix); 15] = [
    ("pick", Mix::Pick),
    ("tick-pick", Mix::TickPick),
    ("sleep-pick-wake", Mix::SleepPickWake),
    ("yield-pick", Mix::YieldPick),
    ("pull", Mix::Pull),
    ("tick-sleep-pick-wake", Mix::TickSleepPickWake),
    ("doze-pick-wake", Mix::DozePickWake),
    ("tick-doze-pick-wake", Mix::TickDozePickWake),
    ("renice", Mix::Renice),
    ("pick-peek", Mix::PickPeek),
    ("tick-peek-pick", Mix::TickPeekPick),
    ("tick-pick-timer", Mix::TickPickTimer),
    ("tick-timer-pick", Mix::TickTimerPick),
    ("tick-rebase-pick", Mix::TickRebasePick),
    ("tick-pick-rebase-pick", Mix::TickPickRebasePick),
];

impl Mix {
    /// The mix that a word names.
    pub fn of(word: &str) -> Option<Mix> {
        for (name, mix) in WORDS {
            if name == word {
                return Some(mix);
            }
        }
        None
    }
}
