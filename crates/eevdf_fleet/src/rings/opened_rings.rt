ghost use Rattle.std.specs.Prelude.{◌≡◌, [], length, replicate, IfOk, Some};
ghost use Rattle.eevdf_fleet.specs.{Board.IsToken, Board.posts_of, PostClaims.posts_from};
ghost use Rattle.eevdf_fleet.specs.Requests.{source_at, terms_in};
ghost use Rattle.eevdf_fleet.specs.Rings as rings;
ghost use Rattle.eevdf_fleet.specs.{OpenedRings.AreRow, RingEnds.lists_of};

use crate::board::{NamedBoard, Token};
use crate::names::Names;
use crate::rings::consumer_ends::Consumers;
use crate::rings::named_ends::{consumers_by_home, producers_by_sender};
use crate::rings::producer_ends::Producers;
use crate::rings::request::{PopEnd, PushEnd};
use crate::rings::ring_ends::{open_ring, slots_for};
use eevdf_ops::CpuId;
use std::alloc::{AllocError, Global};
use std::marker::Model;
use std::snapshot::Snapshot;
use std::sync::Arc;

/// Each list of ends has room for so many more than it needs. This keeps the ends that one thread writes to off the cache lines of those
/// of another thread.
const UNUSED_ENDS: usize = 4;

/// A ring for each pair of a sender and a home, into which nothing was posted.
#[derive(Drop)]
pub(crate) struct Rings {
    capacity: usize,
    homes: Snapshot<Vec<CpuId>>,
    board: Snapshot<Token>,
    // by senders, then by homes
    producers: Vec<Vec<PushEnd>>,
    // by homes, then by senders
    consumers: Vec<Vec<PopEnd>>,
}

impl Model for Rings {
    ghost use Rattle.std.specs.Coded.{codes};
    ghost use Rattle.eevdf_queue.specs.Codes.{state_code};
    ghost use Rattle.std.specs.Prelude.{length};
    ghost use Rattle.eevdf_fleet.specs.Rings as rings;
    ghost use Rattle.eevdf_fleet.specs.{OpenedRings.AreOpened, RingEnds.lists_of};
    ghost use Rattle.eevdf_fleet.specs.Requests.{source_at, terms_in};

    ghost Value = { rings.Rings };

    ghost coded = { Prim.hlevel (codes, state_code) };

    ghost view = { λ r. record {
      board = r.board.value.table_id;
      terms = terms_in r.board.value.views;
      capacity = r.capacity;
      homes = r.homes.value.items;
      rings = lists_of r.producers.items;
    } };

    ghost invariant = { λ r.
        AreOpened r.capacity (source_at r.board.value.table_id (terms_in r.board.value.views) r.homes.value.items) (length r.producers.items)
        (lists_of r.producers.items) (lists_of r.consumers.items) };
}

impl Rings {
    /// Opens a ring of this capacity for each pair of so many CPUs, for tasks with these homes. Requests have tokens of the same board
    /// as this one.
    pub(crate) fn open(
        alloc: Global,
        cpus: usize,
        capacity: usize,
        homes: &Vec<CpuId>,
        board: &Token,
    ) -> Result<Rings, AllocError>
        ensures cpus { IfOk result (λ r. length r.rings ≡ cpus) }
        ensures capacity { IfOk result (λ r. r.capacity ≡ capacity) }
        ensures homes { IfOk result (λ r. r.homes ≡ homes.now.items) }
        ensures board { IfOk result (λ r. r.board ≡ board.now.table_id) }
        ensures terms { IfOk result (λ r. r.terms ≡ terms_in board.now.views) }
    {
        let mut consumers = no_consumers(alloc, cpus)?;
        let mut producers = Vec::with_capacity(alloc, cpus)?;
        for sender in 0..cpus {
            producers.push(open_row(alloc, capacity, sender, homes, board, &mut consumers)?)?;
        }
        Ok(Rings {
            capacity,
            homes: Snapshot::of(homes),
            board: Snapshot::of(board),
            producers,
            consumers,
        })
    }

    /// How many requests each ring has room for.
    pub(crate) fn capacity(&self) -> usize
        ensures { result ≡ self.now.capacity }
    {
        self.capacity
    }

    /// The ends of the rings, by the CPUs that keep them: each CPU's as a sender, and each CPU's as a home.
    pub(crate) fn named<N: Names>(
        self,
        alloc: Global,
        board: &Arc<NamedBoard<N>>,
        token: Token,
    ) -> Result<(Vec<Producers<N>>, Vec<Consumers<N>>), AllocError>
        requires rings { self ≡ N.kit.rings }
        requires board { self.board ≡ N.kit.board }
        requires terms { self.terms ≡ Some N.kit.terms }
        requires token { IsToken N.kit.board N.kit.terms token }
        requires posts { posts_of token ≡ posts_from (length self.rings) 0 (length self.rings) }
        ensures producers { IfOk result (λ ends.
            ends.0.items ≡ rings.all_no_posts self.capacity (length self.rings)) }
        ensures consumers { IfOk result (λ ends.
            ends.1.items ≡ rings.all_no_takes (length self.rings)) }
    {
        let Rings {
            capacity,
            homes: _,
            board: _,
            producers,
            consumers,
        } = self;
        let producers = producers_by_sender(alloc, capacity, producers, board, token)?;
        let consumers = consumers_by_home(alloc, consumers)?;
        Ok((producers, consumers))
    }
}

/// For each CPU no ends yet.
fn no_consumers(alloc: Global, cpus: usize) -> Result<Vec<Vec<PopEnd>>, AllocError>
    ensures { IfOk result (λ columns. lists_of columns.items ≡ replicate cpus []) }
{
    let mut columns = Vec::with_capacity(alloc, cpus)?;
    for _ in 0..cpus {
        columns.push(Vec::with_capacity(alloc, cpus.saturating_add(UNUSED_ENDS))?)?;
    }
    Ok(columns)
}

/// Opens the rings of one sender to all homes. Each home gets its end, and the sender's ends are the answer.
fn open_row(
    alloc: Global,
    capacity: usize,
    sender: usize,
    homes: &Vec<CpuId>,
    board: &Token,
    columns: &mut Vec<Vec<PopEnd>>,
) -> Result<Vec<PushEnd>, AllocError>
    ensures { IfOk result (λ row. AreRow capacity
        (source_at board.now.table_id (terms_in board.now.views) homes.now.items sender)
        (length (lists_of columns.old.items)) row.items
        (lists_of columns.old.items) (lists_of columns.new.items)) }
{
    let slots = slots_for(capacity);
    let mut row = Vec::with_capacity(alloc, columns.len().saturating_add(UNUSED_ENDS))?;
    for home in 0..columns.len() {
        let (producer, consumer) = open_ring(alloc, slots, sender, home, homes, board)?;
        row.push(producer)?;
        columns[home].push(consumer)?;
    }
    Ok(row)
}
