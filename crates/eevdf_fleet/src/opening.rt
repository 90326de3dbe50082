//! How a fleet is opened from its kit.

ghost use Rattle.std.specs.Prelude.{◌≡◌, ◌<◌, ◌≤◌, ◌+◌, ◌++◌, [], ◌∷◌, drop, vec_len};
ghost use Rattle.std.specs.Prelude.{IfOk, OnOk, Some, is_some, length};
ghost use Rattle.eevdf_ops.specs.Numbers.{most_cpus};
ghost use Rattle.eevdf_ops.specs.{Outcome.machine_of, Places.AreCpus, Setup.cpus_of};
ghost use Rattle.eevdf_ops.specs.{Setup.homes_of};
ghost use Rattle.eevdf_fleet.specs.declared.board.claims.Claim.TheVariants as claim;
ghost use Rattle.eevdf_fleet.specs.{Board.IsToken, Board.claims_of, Board.posts_of, Claims.IsOnTerms, Claims.claims_from};
ghost use Rattle.eevdf_fleet.specs.Claims.{no_posts};
ghost use Rattle.eevdf_fleet.specs.Fleets.{HasLines, all_fresh_parts, capacity_of, fresh_log, fresh_logs};
ghost use Rattle.eevdf_fleet.specs.Fleets.{quota_of, setup_of};
ghost use Rattle.eevdf_fleet.specs.Rings.{all_no_posts, all_no_takes};

use crate::board::{NamedBoard, Token};
use crate::journal::Journal;
use crate::locks::{JournalLock, QueueLock};
use crate::names::Names;
use crate::rings::{Consumers, Producers, Rings};
use crate::seat_log::SeatLog;
use crate::seat_parts::SeatParts;
use crate::slot::Slot;
use atomic_table::Badge;
use eevdf_ops::{CpuId, Line};
use eevdf_queue::Queue;
use std::alloc::{AllocError, Global};
use std::marker::PhantomData;
use std::mem;
use std::sync::Arc;

/// The logs of the seats and the locks of a fleet, the token of the journal, and room for as many queues.
#[derive(Drop)]
pub(crate) struct Opened<N: Names> {
    pub(crate) logs: Vec<SeatLog<N>>,
    pub(crate) locks: Vec<QueueLock<N>>,
    pub(crate) token: Token,
    pub(crate) queues: Vec<Queue>,
}

/// Gives each CPU its log and its lock.
pub(crate) fn open_all<N: Names>(
    alloc: Global,
    board: &NamedBoard<N>,
    token: Token,
    queues: Vec<Queue>,
    room: usize,
) -> Result<Opened<N>, AllocError>
    requires token { IsToken N.kit.board N.kit.terms token }
    requires claims { claims_of token ≡ claims_from 0 (machine_of queues.items) }
    requires cpus { vec_len queues ≡ cpus_of (setup_of N.kit) }
    requires few { cpus_of (setup_of N.kit) ≤ most_cpus }
    requires begun { IsOnTerms N.kit.terms [] }
    requires room { room ≡ quota_of N.kit }
    ensures logs { IfOk result (λ o. o.logs.items ≡ fresh_logs (quota_of N.kit) (cpus_of (setup_of N.kit))) }
    ensures locks { IfOk result (λ o. vec_len o.locks ≡ cpus_of (setup_of N.kit)) }
    ensures token { IfOk result (λ o. IsToken N.kit.board N.kit.terms o.token) }
    ensures claims { IfOk result (λ o. claims_of o.token ≡ claim.Journal [] ∷ []) }
    ensures queues { IfOk result (λ o. vec_len o.queues ≡ cpus_of (setup_of N.kit)) }
{
    let cpus = queues.len();
    let logs = Vec::with_capacity(alloc, cpus)?;
    let locks = Vec::with_capacity(alloc, cpus)?;
    let mut opened = Opened {
        logs,
        locks,
        token,
        queues,
    };
    for number in 0..cpus {
        open_next(alloc, board, &mut opened, CpuId::numbered(number), room)?;
    }
    Ok(opened)
}

/// Gives the next CPU its log and its lock. The token claims what is its first.
fn open_next<N: Names>(
    alloc: Global,
    board: &NamedBoard<N>,
    opened: &mut Opened<N>,
    cpu: CpuId,
    room: usize,
) -> Result<(), AllocError>
    requires token { IsToken N.kit.board N.kit.terms opened.old.token }
    requires claims { claims_of opened.old.token
        ≡ claims_from cpu (drop cpu (machine_of opened.old.queues.items)) }
    requires queue { cpu < vec_len opened.old.queues }
    requires cpu { cpu < cpus_of (setup_of N.kit) }
    requires begun { IsOnTerms N.kit.terms [] }
    requires room { room ≡ quota_of N.kit }
    ensures log { OnOk result
        (opened.new.logs.items ≡ opened.old.logs.items ++ fresh_log (quota_of N.kit) cpu ∷ []) }
    ensures lock { OnOk result (vec_len opened.new.locks ≡ vec_len opened.old.locks + 1) }
    ensures token { OnOk result (IsToken N.kit.board N.kit.terms opened.new.token) }
    ensures claims { OnOk result (claims_of opened.new.token
        ≡ claims_from (cpu + 1) (drop (cpu + 1) (machine_of opened.new.queues.items))) }
    ensures queues { OnOk result (vec_len opened.new.queues ≡ vec_len opened.old.queues) }
{
    let lines = Vec::with_capacity(alloc, room)?;
    let token = mem::replace(&mut opened.token, Badge::blank());
    let (own, token) = board.split_two(token);
    let (kept, others) = board.split(token);
    opened.token = others;
    let log = SeatLog {
        cpu,
        lines,
        room,
        token: own,
        names: PhantomData,
    };
    opened.logs.push(log)?;
    let queue = mem::replace(&mut opened.queues[cpu.index()], Queue::open());
    let slot = Slot {
        number: cpu,
        queue,
        token: kept,
        names: PhantomData,
    };
    opened.locks.push(QueueLock::new(slot))?;
    Ok(())
}

/// Opens the journal, where one is kept. Nothing is left to be claimed.
pub(crate) fn open_journal<N: Names>(
    board: &NamedBoard<N>,
    token: Token,
    lines: Option<Vec<Line>>,
) -> (Option<JournalLock<N>>, Token)
    requires token { IsToken N.kit.board N.kit.terms token }
    requires claims { claims_of token ≡ claim.Journal [] ∷ [] }
    requires lines { HasLines N.kit.terms.quota (cpus_of (setup_of N.kit)) lines }
    ensures journal { is_some result.0 ≡ is_some N.kit.terms.quota }
    ensures token { IsToken N.kit.board N.kit.terms result.1 }
    ensures claims { claims_of result.1 ≡ [] }
{
    let (all, rest) = board.split(token);
    let journal = match lines {
        None => None,
        Some(lines) => Some(JournalLock::new(Journal {
            lines,
            token: all,
            names: PhantomData,
        })),
    };
    (journal, rest)
}

/// Gives each log the ends of its CPU's rings, with the token of its posts.
pub(crate) fn open_seats<N: Names>(
    alloc: Global,
    mut logs: Vec<SeatLog<N>>,
    rings: Rings,
    homes: &Vec<CpuId>,
    board: &Arc<NamedBoard<N>>,
    posts: Token,
) -> Result<Vec<SeatParts<N>>, AllocError>
    requires logs { logs.items ≡ fresh_logs (quota_of N.kit) (cpus_of (setup_of N.kit)) }
    requires rings { rings ≡ N.kit.rings }
    requires cpus { length rings.rings ≡ cpus_of (setup_of N.kit) }
    requires ring_homes { rings.homes ≡ homes_of (setup_of N.kit) }
    requires ring_board { rings.board ≡ N.kit.board }
    requires ring_terms { rings.terms ≡ Some N.kit.terms }
    requires token { IsToken N.kit.board N.kit.terms posts }
    requires posts { posts_of posts ≡ no_posts N.kit.terms }
    requires homes { homes.now.items ≡ homes_of (setup_of N.kit) }
    requires homes_below { AreCpus (cpus_of (setup_of N.kit)) (homes_of (setup_of N.kit)) }
    ensures { IfOk result (λ seats.
        seats.items ≡ all_fresh_parts N.kit) }
{
    let (mut producers, mut consumers) = rings.named::<N>(alloc, board, posts)?;
    let mut seats = Vec::with_capacity(alloc, logs.len())?;
    make_seats(&mut logs, &mut producers, &mut consumers, homes, &mut seats)?;
    Ok(seats)
}

/// Makes a seat of each log and of the ends of its CPU's rings. They are made last first, and then put in order.
fn make_seats<N: Names>(
    logs: &mut Vec<SeatLog<N>>,
    producers: &mut Vec<Producers<N>>,
    consumers: &mut Vec<Consumers<N>>,
    homes: &Vec<CpuId>,
    seats: &mut Vec<SeatParts<N>>,
) -> Result<(), AllocError>
    requires logs { logs.old.items ≡ fresh_logs (quota_of N.kit) (cpus_of (setup_of N.kit)) }
    requires producers { producers.old.items
        ≡ all_no_posts (capacity_of N.kit) (cpus_of (setup_of N.kit)) }
    requires consumers { consumers.old.items ≡ all_no_takes (cpus_of (setup_of N.kit)) }
    requires homes { homes.now.items ≡ homes_of (setup_of N.kit) }
    requires homes_below { AreCpus (cpus_of (setup_of N.kit)) (homes_of (setup_of N.kit)) }
    requires ring_homes { N.kit.rings.homes ≡ homes_of (setup_of N.kit) }
    requires ring_board { N.kit.rings.board ≡ N.kit.board }
    requires ring_terms { N.kit.rings.terms ≡ Some N.kit.terms }
    requires none { seats.old.items ≡ [] }
    ensures { OnOk result
        (seats.new.items ≡ all_fresh_parts N.kit) }
{
    for _ in 0..logs.len() {
        let homes = homes.clone()?;
        match (logs.pop(), producers.pop(), consumers.pop()) {
            (Some(log), Some(producers), Some(consumers)) => {
                seats.push(SeatParts {
                    unused_before: [0; 8],
                    log,
                    producers,
                    consumers,
                    homes,
                    unused_after: [0; 8],
                })?;
            }
            _ => unreachable!(),
        }
    }
    seats.reverse();
    Ok(())
}
