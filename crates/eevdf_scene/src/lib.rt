//! What a picture, a trace, a table or figures are made of: a history whose lines have their times, and what is known of it besides.
//!
//! `timed` gives each line its time, and of the moments that come out all else is made. A `View` says which CPUs and tasks are shown, and a
//! `Scale` which times. `turns_of` joins ticks to stretches, with the rests between them, and `shown_of` finds which tasks the time shows.
//! What the lines don't say is in the queues: `observe` does the deeds once more on a machine of its own, and an `Observer` looks at its
//! queues between them, as `Lags` does for curves and loads. A `Scene` is all of this together. Nothing here draws it, but
//! `stretch_table_of`, which lists the stretches.
#![tactic(auto)]

mod again;
mod concerned;
mod lags;
mod lists;
mod moments;
mod scale;
mod scene;
mod shown;
mod stretch_table;
mod stretches;
mod view;

pub use again::{Observer, Progress, observe};
pub use concerned::{
    charged_task, is_rebase, moved_task, other_cpu, running_after, sender_of, task_of,
};
pub use lags::{After, COLUMNS, Curve, Lags, Load, MOST_CURVES, Notes, Point};
pub use lists::set_at;
pub use moments::timed;
pub use scale::{Scale, Tenths, part};
pub use scene::Scene;
pub use shown::{Shown, shown_of};
pub use stretch_table::{chosen_places, delay_of, stretch_table_of};
pub use stretches::{Rest, Stop, Stretch, Turns, turns_of};
pub use view::{Choice, View};
