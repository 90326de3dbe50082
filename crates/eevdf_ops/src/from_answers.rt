//! The answers of one queue as those of deeds.

ghost use Rattle.std.specs.Prelude.{◌≡◌};
ghost use Rattle.eevdf_ops.specs.OneQueue.{answer_of_pick, answer_of_renice, answer_of_tick};
ghost use Rattle.eevdf_ops.specs.OneQueue.{answer_of_set, answer_of_wake, answer_of_yield};

use crate::deeds::Answer;
use eevdf_queue::{ReniceAnswer, SetAnswer, TaskId, TickAnswer, WakeAnswer, YieldAnswer};

/// The answer of a pick: who was picked, and `Idle` where nothing is runnable.
impl From<Option<TaskId>> for Answer {
    ghost from_gives = { λ picked answer. answer ≡ answer_of_pick picked };

    fn from(picked: Option<TaskId>) -> Answer {
        match picked {
            Some(task) => Answer::Picked(task),
            None => Answer::Idle,
        }
    }
}

impl From<TickAnswer> for Answer {
    ghost from_gives = { λ tick answer. answer ≡ answer_of_tick tick };

    fn from(tick: TickAnswer) -> Answer {
        match tick {
            TickAnswer::Charged { task, resched } => Answer::Charged { task, resched },
            TickAnswer::Idle => Answer::Idle,
            TickAnswer::Range => Answer::Range,
        }
    }
}

impl From<YieldAnswer> for Answer {
    ghost from_gives = { λ yielded answer. answer ≡ answer_of_yield yielded };

    fn from(yielded: YieldAnswer) -> Answer {
        match yielded {
            YieldAnswer::Yielded => Answer::Yielded,
            YieldAnswer::Idle => Answer::Idle,
            YieldAnswer::Range => Answer::Range,
        }
    }
}

impl From<WakeAnswer> for Answer {
    ghost from_gives = { λ woken answer. answer ≡ answer_of_wake woken };

    fn from(woken: WakeAnswer) -> Answer {
        match woken {
            WakeAnswer::Woken => Answer::Woken,
            WakeAnswer::Awake => Answer::Awake,
            WakeAnswer::Range => Answer::Range,
        }
    }
}

impl From<ReniceAnswer> for Answer {
    ghost from_gives = { λ reniced answer. answer ≡ answer_of_renice reniced };

    fn from(reniced: ReniceAnswer) -> Answer {
        match reniced {
            ReniceAnswer::Reniced => Answer::Reniced,
            ReniceAnswer::NotHere => Answer::NotHere,
            ReniceAnswer::Range => Answer::Range,
        }
    }
}

impl From<SetAnswer> for Answer {
    ghost from_gives = { λ set answer. answer ≡ answer_of_set set };

    fn from(set: SetAnswer) -> Answer {
        match set {
            SetAnswer::Set => Answer::Set,
            SetAnswer::NotHere => Answer::NotHere,
            SetAnswer::Range => Answer::Range,
        }
    }
}
