//! What the callers do at the places of an order.

use crate::race::Places;
use eevdf_ops::{CpuId, Op, Setup};
use eevdf_scene::set_at;
use eevdf_steps::{Micro, Player};
use std::alloc::{AllocError, Global};

/// What is done at a place of an order.
#[derive(Clone, Copy)]
pub(crate) struct Step {
    pub place: usize,
    pub caller: CpuId,
    pub micro: Micro,
    /// The operation of which it is a part.
    pub op: Option<Op>,
    /// The place in the history of the line that it adds, where it adds one.
    pub line: Option<usize>,
}

/// An operation of a caller, from its first step to its last one.
#[derive(Clone, Copy)]
pub(crate) struct Operation {
    pub caller: CpuId,
    pub op: Option<Op>,
    pub first: usize,
    pub last: usize,
}

/// The steps of some places, and the operations of which some part is there.
#[derive(Drop)]
pub(crate) struct Race {
    pub steps: Vec<Step>,
    pub operations: Vec<Operation>,
}

/// Plays an order, and notes what is done at these places.
pub(crate) fn steps_of(
    alloc: Global,
    setup: &Setup,
    order: &[usize],
    places: Places,
) -> Result<Race, AllocError> {
    let mut player = Player::open(alloc, setup)?;
    let mut race = Race {
        steps: Vec::new(alloc),
        operations: Vec::new(alloc),
    };
    let mut callers = vec![in alloc; Caller::FIRST; setup.cpus()]?;
    for (place, number) in order.iter().enumerate() {
        let lines = player.history().len();
        let micro = player.next(*number);
        // the order was played before, so no step is refused
        if player.step(*number).is_ok() {
            let has_line = player.history().len() > lines;
            let line = if has_line { Some(lines) } else { None };
            if let Some(micro) = &micro {
                race.note(setup, &mut callers, places, place, *number, micro, line)?;
            }
        }
    }
    Ok(race)
}

impl Race {
    /// Notes a step of a caller, where it is drawn, and the operation that it ends.
    fn note(
        &mut self,
        setup: &Setup,
        callers: &mut [Caller],
        places: Places,
        place: usize,
        number: usize,
        micro: &Micro,
        line: Option<usize>,
    ) -> Result<(), AllocError> {
        if number >= callers.len() || number >= setup.cpus() || number >= CpuId::COUNT {
            return Ok(());
        }
        let caller = CpuId::numbered(number);
        let now = callers[number].with(place, micro);
        if places.has(place) {
            self.steps.push(Step {
                place,
                caller,
                micro: *micro,
                op: setup.program(caller).get(now.operation).copied(),
                line,
            })?;
        }
        if !now.has_ended() {
            set_at(callers, number, now);
            return Ok(());
        }
        set_at(callers, number, now.next());
        if now.first < places.to && places.from <= place {
            self.operations.push(Operation {
                caller,
                op: setup.program(caller).get(now.operation).copied(),
                first: now.first,
                last: place,
            })?;
        }
        Ok(())
    }
}

/// Where a caller is in its program.
#[derive(Clone, Copy)]
struct Caller {
    /// The place in its program of the operation that it does.
    operation: usize,
    /// The place of the operation's first step.
    first: usize,
    /// How many steps of it are done.
    steps: usize,
    /// How many locks it holds.
    held: usize,
}

impl Caller {
    const FIRST: Caller = Caller {
        operation: 0,
        first: 0,
        steps: 0,
        held: 0,
    };

    /// After a step at a place.
    fn with(self, place: usize, micro: &Micro) -> Caller {
        let held = match micro {
            Micro::Acquire(_) => self.held.saturating_add(1),
            Micro::Release(_) => self.held.saturating_sub(1),
            _ => self.held,
        };
        Caller {
            first: if self.steps == 0 { place } else { self.first },
            steps: self.steps.saturating_add(1),
            held,
            ..self
        }
    }

    /// Whether its operation is done: each one ends as it holds no lock, and only a post holds none before.
    fn has_ended(&self) -> bool {
        self.held == 0
    }

    /// At the beginning of the next operation.
    fn next(self) -> Caller {
        Caller {
            operation: self.operation.saturating_add(1),
            ..Caller::FIRST
        }
    }
}
