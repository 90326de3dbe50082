//! What is known of a stretch beside what the table says of it.

use eevdf_clocks::{Moment, named_task};
use eevdf_ops::{Answer, CpuId, Setup};
use eevdf_queue::TaskId;
use eevdf_scene::{Stretch, sender_of, set_at};
use std::alloc::{AllocError, Global};

/// How a stretch began.
#[derive(Clone, Copy)]
pub(crate) struct Detail {
    /// The place of its first tick in the history.
    pub first: usize,
    pub ticks: u64,
    /// The CPU that asked for the task's wake, where the task hadn't run since.
    pub woken_from: Option<CpuId>,
}

/// The details of the stretches of a history, in the order of these.
pub(crate) fn details_of(
    alloc: Global,
    setup: &Setup,
    moments: &[Moment],
    stretches: &[Stretch],
) -> Result<Vec<Detail>, AllocError> {
    let mut begun = Begun {
        details: Vec::new(alloc),
        last_on: vec![in alloc; None; setup.cpus()]?,
        woken_from: vec![in alloc; None; setup.tasks()]?,
    };
    for (place, moment) in moments.iter().enumerate() {
        begun.follow(place, moment, stretches)?;
    }
    Ok(begun.details)
}

/// The stretches that have begun.
#[derive(Drop)]
struct Begun {
    details: Vec<Detail>,
    // the last one of each CPU
    last_on: Vec<Option<usize>>,
    // of each task, where it hasn't run since its wake
    woken_from: Vec<Option<CpuId>>,
}

impl Begun {
    fn follow(
        &mut self,
        place: usize,
        moment: &Moment,
        stretches: &[Stretch],
    ) -> Result<(), AllocError> {
        match moment.line.answer {
            Answer::Charged { task, .. } => {
                if self.is_first_tick(moment, stretches) {
                    self.begin(place, moment.line.deed.cpu(), task)?;
                }
                self.count_tick(moment.line.deed.cpu());
                set_at(&mut self.woken_from, task.index(), None);
            }
            Answer::Woken => {
                if let Some(task) = named_task(moment.line.deed) {
                    set_at(&mut self.woken_from, task.index(), sender_of(moment));
                }
            }
            _ => {}
        }
        Ok(())
    }

    /// Whether a tick is the first one of the next stretch: the others of its CPU begin at other times.
    fn is_first_tick(&self, moment: &Moment, stretches: &[Stretch]) -> bool {
        stretches.get(self.details.len()).is_some_and(|next| next.cpu == moment.line.deed.cpu()
            && next.begin == moment.begin)
    }

    fn begin(&mut self, place: usize, cpu: CpuId, task: TaskId) -> Result<(), AllocError> {
        set_at(&mut self.last_on, cpu.index(), Some(self.details.len()));
        self.details.push(Detail {
            first: place,
            ticks: 0,
            woken_from: self.woken_from.get(task.index()).copied().flatten(),
        })?;
        Ok(())
    }

    fn count_tick(&mut self, cpu: CpuId) {
        let Some(place) = self.last_on.get(cpu.index()).copied().flatten() else {
            return;
        };
        if let Some(detail) = self.details.get_mut(place) {
            detail.ticks = detail.ticks.saturating_add(1);
        }
    }
}
