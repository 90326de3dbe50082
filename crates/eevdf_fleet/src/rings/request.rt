//! What goes through a ring.

ghost use Rattle.std.specs.Prelude.{◌≡◌};
ghost use Rattle.eevdf_fleet.specs.Requests.{IsMark, source_at, terms_in};

use crate::board::Token;
use atomic_table::Badge;
use eevdf_ops::CpuId;
use eevdf_queue::TaskId;
use rtrb::{Consumer, Producer, Protocol};
use std::alloc::Global;
use std::snapshot::Snapshot;

/// The end of a ring that pushes.
pub(super) type PushEnd = Producer<Request, Global, AtHome>;

/// The end of a ring that pops.
pub(super) type PopEnd = Consumer<Request, Global, AtHome>;

/// Whose requests go through a ring, whose home it leads to, the homes of all tasks, and a token of the board that its requests have
/// tokens of.
#[derive(Drop)]
pub(crate) struct Lead {
    sender: usize,
    home: usize,
    homes: Snapshot<Vec<CpuId>>,
    board: Snapshot<Token>,
}

/// A request to wake a task. Its token claims that its sender has posted it after those before it in the ring. The first item of each
/// ring, the mark, is none: it says where the ring leads, so that each end knows of which tasks its requests are.
#[derive(Drop)]
pub(crate) struct Request {
    pub(crate) task: TaskId,
    pub(crate) token: Token,
    // It takes no memory, and is told by the mark alone.
    pub(crate) lead: Snapshot<Option<Lead>>,
}

impl Request {
    /// The mark of a sender's ring that leads to a home.
    pub(super) fn mark(sender: usize, home: usize, homes: &Vec<CpuId>, board: &Token) -> Request
        ensures { IsMark (source_at board.now.table_id (terms_in board.now.views) homes.now.items sender) home result }
    {
        // Nobody reads the task of a mark.
        let Some(task) = TaskId::new(0) else {
            unreachable!()
        };
        let homes = Snapshot::of(homes);
        let board = Snapshot::of(board);
        let lead = Lead {
            sender,
            home,
            homes,
            board,
        };
        Request {
            task,
            token: Badge::blank(),
            lead: Snapshot::of(&Some(lead)),
        }
    }

    /// A request to wake a task.
    pub(super) fn to_wake(task: TaskId, token: Token) -> Request
        ensures task { result.task ≡ task }
        ensures token { result.token ≡ token }
    {
        Request {
            task,
            token,
            lead: Snapshot::of(&None),
        }
    }
}

/// Each request in a ring is of a task whose home is the one that the ring leads to.
pub(crate) struct AtHome;

impl Protocol<Request> for AtHome {
    ghost use Rattle.eevdf_fleet.specs.Requests.{Allows};

    ghost allows = { Allows };
}
