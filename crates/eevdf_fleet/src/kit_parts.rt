ghost use Rattle.std.specs.Prelude.{◌≡◌, ◌≤◌, IfOk, IfSome};
ghost use Rattle.eevdf_fleet.specs.Fleets.{capacity_of, most_lines, most_requests, quota_in};
ghost use Rattle.eevdf_fleet.specs.Fleets.{setup_of};

use crate::board::{Board, Terms, Token};
use crate::rings::Rings;
use eevdf_ops::{CpuId, Line, Setup, Solo, laws};
use eevdf_queue::Queue;
use std::alloc::{AllocError, Global};
use std::marker::Model;
use std::snapshot::Snapshot;

/// What run queues are opened from: the queues as the setup has them at the start, the rings between the CPUs, and, where a journal is
/// kept, room for the lines of every CPU.
#[derive(Drop)]
pub(crate) struct KitParts {
    pub(crate) board: Board,
    pub(crate) token: Token,
    pub(crate) homes: Vec<CpuId>,
    pub(crate) queues: Vec<Queue>,
    pub(crate) rings: Rings,
    pub(crate) lines: Option<Vec<Line>>,
    pub(crate) quota: Option<usize>,
}

impl Model for KitParts {
    ghost use Rattle.std.specs.Coded.{codes};
    ghost use Rattle.eevdf_queue.specs.Codes.{state_code};
    ghost use Rattle.eevdf_fleet.specs.Fleets.{Kit};

    ghost Value = { Kit };

    ghost coded = { Prim.hlevel (codes, state_code) };

    ghost view = { λ k. record {
      board = k.board.table.shared.table_id;
      terms = k.board.table.shared.key;
      rings = k.rings;
    } };

    ghost use Rattle.std.specs.Prelude.{◌≡◌, ◌≤◌, [], length, vec_len, Some};
    ghost use Rattle.eevdf_ops.specs.{Numbers.most_cpus, Outcome.machine_of, Places.AreCpus};
    ghost use Rattle.eevdf_ops.specs.{Setup.cpus_of, Setup.homes_of};
    ghost use Rattle.eevdf_fleet.specs.{Board.IsToken, Board.claims_of, Board.posts_of, Claims.IsOnTerms, Claims.claims_from};
    ghost use Rattle.eevdf_fleet.specs.Claims.{no_posts};
    ghost use Rattle.eevdf_fleet.specs.Fleets.{HasLines};

    ghost invariant = { λ k. IsToken k.board.table.shared.table_id k.board.table.shared.key k.token
        × (claims_of k.token ≡ claims_from 0 (machine_of k.queues.items))
        × (posts_of k.token ≡ no_posts k.board.table.shared.key)
        × (k.homes.items ≡ homes_of k.board.table.shared.key.setup.value)
        × (vec_len k.queues ≡ cpus_of k.board.table.shared.key.setup.value)
        × HasLines k.board.table.shared.key.quota (cpus_of k.board.table.shared.key.setup.value) k.lines
        × (k.quota ≡ k.board.table.shared.key.quota)
        × IsOnTerms k.board.table.shared.key []
        × AreCpus (cpus_of k.board.table.shared.key.setup.value)
        (homes_of k.board.table.shared.key.setup.value)
        × (cpus_of k.board.table.shared.key.setup.value ≤ most_cpus)
        × (length k.rings.rings ≡ cpus_of k.board.table.shared.key.setup.value)
        × (k.rings.homes ≡ homes_of k.board.table.shared.key.setup.value)
        × (k.rings.board ≡ k.board.table.shared.table_id)
        × (k.rings.terms ≡ Some k.board.table.shared.key) };
}

impl KitParts {
    /// The parts of a kit. Where there is a quota, a journal is kept, and each CPU may have so many lines over all.
    pub(crate) fn make(
        alloc: Global,
        setup: &Setup,
        quota: Option<usize>,
        rings: usize,
    ) -> Result<KitParts, AllocError>
        requires quota { IfSome quota (λ most. most ≤ most_lines) }
        requires rings { rings ≤ most_requests }
        ensures setup { IfOk result (λ k. setup_of k ≡ setup.now) }
        ensures quota { IfOk result (λ k. k.terms.quota ≡ quota) }
        ensures rings { IfOk result (λ k. capacity_of k ≡ rings) }
    {
        laws::start_is_placed(setup);
        let terms = Terms {
            setup: Snapshot::of(setup),
            quota,
        };
        let homes = setup.homes(alloc)?;
        let queues = Solo::open(alloc, setup)?.into_queues();
        let lines = match quota {
            None => None,
            Some(most) => Some(Vec::with_capacity(alloc, setup.cpus() * most)?),
        };
        let (board, token) = Board::open(alloc, &terms)?;
        let rings = Rings::open(alloc, setup.cpus(), rings, &homes, &token)?;
        Ok(KitParts {
            board,
            token,
            homes,
            queues,
            rings,
            lines,
            quota,
        })
    }
}

/// How many lines each CPU has room for, where a journal is kept, and 0 where none is.
pub(crate) fn room_of(quota: Option<usize>) -> usize
    ensures { result ≡ quota_in quota }
{
    match quota {
        None => 0,
        Some(most) => most,
    }
}
