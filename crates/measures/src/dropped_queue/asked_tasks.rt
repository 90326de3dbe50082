ghost use Rattle.std.specs.Prelude.{◌+◌, ◌≤◌};

use eevdf_queue::TaskId;

/// How many tasks the words ask for.
#[derive(Clone, Copy)]
pub struct AskedTasks {
    pub runnable: u64,
    pub asleep: u64,
    pub ghost few: { runnable + asleep ≤ 1024 },
}

impl AskedTasks {
    /// The tasks that these words ask for. `None` where they aren't two numbers of tasks that one queue can hold together.
    pub fn of(words: &[String]) -> Option<AskedTasks> {
        let [runnable, asleep] = words else {
            return None;
        };
        let runnable = runnable.as_str().parse::<u64>().ok()?;
        let asleep = asleep.as_str().parse::<u64>().ok()?;
        if runnable.checked_add(asleep)? > TaskId::COUNT as u64 {
            return None;
        }
        Some(AskedTasks { runnable, asleep })
    }
}
