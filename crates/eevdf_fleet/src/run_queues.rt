ghost use Rattle.std.specs.Prelude.{◌≡◌, ◌≢◌, ◌<◌, ◌≤◌, [], is_some, nat_lt, vec_capacity, IfOk, IfSome};
ghost use Rattle.eevdf_ops.specs.Setup.{cpus_of, home_of, homes_of, is_at_home, is_task};
ghost use Rattle.eevdf_fleet.specs.{Fleets.all_fresh_parts, Fleets.setup_of, Sweeps.ComesAfter};

use crate::board::NamedBoard;
use crate::kit_parts::{KitParts, room_of};
use crate::locks::{JournalLock, QueueLock};
use crate::names::Names;
use crate::opening::{Opened, open_all, open_journal, open_seats};
use crate::reserve::Reserve;
use crate::rings::ReturnedEnds;
use crate::seat_parts::SeatParts;
use eevdf_ops::{CpuId, Homes};
use eevdf_queue::TaskId;
use std::alloc::{AllocError, Global};
use std::marker::Model;
use std::sync::atomic::{AtomicBool, Ordering};
use std::sync::{Arc, Mutex};

/// The run queues of all CPUs, each in a lock of its own, and the journal, where one is kept.
#[derive(Drop)]
pub(crate) struct RunQueues<N: Names> {
    pub(crate) board: Arc<NamedBoard<N>>,
    pub(crate) homes: Vec<CpuId>,
    pub(crate) locks: Vec<QueueLock<N>>,
    pub(crate) journal: Option<JournalLock<N>>,
    // The ends of rings can't be shared by threads, not even room for them: hence the lock, which no operation takes.
    pub(crate) reserve: Mutex<Reserve<N>>,
    // Written at most once, so it costs nobody the line of what all threads read.
    pub(crate) thread_was_refused: AtomicBool,
}

impl<N: Names> Model for RunQueues<N> {
    ghost use Rattle.std.specs.Prelude.{◌≡◌, ◌≤◌, is_some, vec_len};
    ghost use Rattle.eevdf_ops.specs.{Numbers.most_cpus, Places.AreCpus, Setup.cpus_of};
    ghost use Rattle.eevdf_ops.specs.{Setup.homes_of};
    ghost use Rattle.eevdf_fleet.specs.Fleets.{setup_of};

    ghost Value = { Unit {0} };

    ghost view = { λ f. tt };

    ghost invariant = { λ f. (f.homes.items ≡ homes_of (setup_of N.kit))
        × (vec_len f.locks ≡ cpus_of (setup_of N.kit))
        × AreCpus (cpus_of (setup_of N.kit)) (homes_of (setup_of N.kit))
        × (cpus_of (setup_of N.kit) ≤ most_cpus)
        × (is_some f.journal ≡ is_some N.kit.terms.quota) };
}

impl<N: Names> RunQueues<N> {
    /// Opens the queues of a kit, and gives a seat for each CPU, in order. It takes all the memory that they ever need.
    pub(crate) fn open(
        alloc: Global,
        kit: KitParts,
    ) -> Result<(RunQueues<N>, Vec<SeatParts<N>>), AllocError>
        requires { kit ≡ N.kit }
        ensures { IfOk result (λ r. r.1.items
            ≡ all_fresh_parts N.kit) }
    {
        let ends = ReturnedEnds::open(alloc, kit.queues.len(), kit.rings.capacity())?;
        let seats = Vec::with_capacity(alloc, kit.queues.len())?;
        RunQueues::<N>::with_room(alloc, kit, ends, seats)
    }

    /// Opens the queues of a kit, with this room for what its seats will give back.
    fn with_room(
        alloc: Global,
        kit: KitParts,
        ends: ReturnedEnds<N>,
        returned: Vec<SeatParts<N>>,
    ) -> Result<(RunQueues<N>, Vec<SeatParts<N>>), AllocError>
        requires kit { kit ≡ N.kit }
        requires ends { ends ≡ record { cpus = cpus_of (setup_of N.kit); posts = []; takes = [] } }
        requires none { returned.items ≡ [] }
        requires room { cpus_of (setup_of N.kit) ≤ vec_capacity returned }
        ensures { IfOk result (λ r. r.1.items
            ≡ all_fresh_parts N.kit) }
    {
        let KitParts {
            board,
            token,
            homes,
            queues,
            rings,
            lines,
            quota,
        } = kit;
        let board = Arc::new(alloc, NamedBoard::new(board))?;
        let (posts, token) = board.split_all_posts(token);
        let opened = open_all(alloc, &board, token, queues, room_of(quota))?;
        let Opened {
            logs,
            locks,
            token,
            queues,
        } = opened;
        let seats = open_seats(alloc, logs, rings, &homes, &board, posts)?;
        let (journal, token) = open_journal(&board, token, lines);
        let queues = RunQueues {
            board,
            homes,
            locks,
            journal,
            reserve: Mutex::new(Reserve {
                queues,
                ends,
                seats: returned,
                token,
            }),
            thread_was_refused: AtomicBool::new(false),
        };
        Ok((queues, seats))
    }

    /// How many CPUs there are.
    pub(crate) fn cpus(&self) -> usize
        ensures { result ≡ cpus_of (setup_of N.kit) }
    {
        self.locks.len()
    }

    /// Whether the setup has a task.
    pub(crate) fn has_task(&self, task: TaskId) -> bool
        ensures { result ≡ is_task (homes_of (setup_of N.kit)) task }
    {
        Homes::Alone(&self.homes).has_task(task)
    }

    /// Whether the setup has a CPU.
    pub(crate) fn has_cpu(&self, cpu: CpuId) -> bool
        ensures { result ≡ nat_lt cpu (cpus_of (setup_of N.kit)) }
    {
        cpu.index() < self.locks.len()
    }

    /// The CPU that comes so many numbers after another one, where the first comes after the last.
    pub(crate) fn cpu_after(&self, cpu: CpuId, steps: usize) -> CpuId
        requires cpu { cpu < cpus_of (setup_of N.kit) }
        requires few { steps < cpus_of (setup_of N.kit) }
        requires some { 0 < steps }
        ensures other { result ≢ cpu }
        ensures after { ComesAfter (cpus_of (setup_of N.kit)) cpu steps result }
    {
        let cpus = self.locks.len();
        let number = cpu.index() + steps;
        CpuId::numbered(if number < cpus { number } else { number - cpus })
    }

    /// Whether the setup has a task that has its home at a CPU.
    pub(crate) fn is_at_home(&self, task: TaskId, cpu: CpuId) -> bool
        ensures { result ≡ is_at_home (homes_of (setup_of N.kit)) task cpu }
    {
        Homes::Alone(&self.homes).is_at_home(task, cpu)
    }

    /// The home of a task, where the setup has the task.
    pub(crate) fn home_of(&self, task: TaskId) -> Option<CpuId>
        ensures some { is_some result ≡ is_task (homes_of (setup_of N.kit)) task }
        ensures home { IfSome result (λ cpu. cpu ≡ home_of (homes_of (setup_of N.kit)) task) }
        ensures cpu { IfSome result (λ cpu. cpu < cpus_of (setup_of N.kit)) }
    {
        self.homes.get(task.index()).copied()
    }

    /// Says that a thread was refused that was to have a seat.
    pub(crate) fn note_refused_thread(&self) {
        self.thread_was_refused.store(true, Ordering::SeqCst);
    }

    /// Whether that was said.
    pub(crate) fn thread_was_refused(&self) -> bool {
        self.thread_was_refused.load(Ordering::SeqCst)
    }
}
