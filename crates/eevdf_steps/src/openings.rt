//! What a player reserves when it opens.

ghost use Rattle.std.specs.Prelude.{◌≡◌, ◌<◌, true, length, slice_index, EachIndex, replicate};
ghost use Rattle.std.specs.Prelude.{None, IfOk};
ghost use Rattle.eevdf_ops.specs.{Machine.start, Numbers.most_operations};
ghost use Rattle.eevdf_steps.specs.Plan.{callers as number, is_sound_op, plan_of, program};
ghost use Rattle.eevdf_steps.specs.Recorded.{done_at_start, recorded};
ghost use Rattle.eevdf_steps.specs.Openings as openings;

use crate::journal::Journal;
use crate::plan::Plan;
use crate::post_list::PostList;
use crate::requests::Requests;
use crate::work::Work;
use eevdf_ops::{CpuId, Op, Setup, Solo};
use eevdf_queue::TaskId;
use std::alloc::{AllocError, Global};

/// For each pair of a sender and a home an empty list with room for what the sender's program posts to the home.
#[tactic(auto, using(std::proofs::lemmas::Grind::common_steps))]
pub(crate) fn empty_posts(alloc: Global, plan: &Plan) -> Result<Vec<PostList>, AllocError>
    ensures { IfOk result (λ lists. openings.AreEmpty plan.now lists.items) }
{
    let count = plan.callers();
    let mut lists = Vec::with_capacity(alloc, count * count)?;
    for sender in 0..count {
        let rooms = post_counts(alloc, plan, CpuId::numbered(sender))?;
        for room in &rooms {
            lists.push(PostList::open(alloc, *room)?)?;
        }
    }
    Ok(lists)
}

/// For each home how many requests a caller's program posts to it.
#[tactic(auto, using(std::proofs::lemmas::Grind::common_steps))]
fn post_counts(alloc: Global, plan: &Plan, caller: CpuId) -> Result<Vec<usize>, AllocError>
    requires { caller < number plan.now }
    ensures { IfOk result (λ counts.
        openings.CountPosts plan.now (program plan.now caller) counts.items) }
{
    plan.keeps();
    let mut counts = vec![in alloc; 0; plan.callers()]?;
    for op in plan.program(caller) {
        count_post(plan, *op, &mut counts);
    }
    Ok(counts)
}

/// Counts the request that an operation posts, if it posts one.
fn count_post(plan: &Plan, op: Op, counts: &mut [usize])
    requires sound { is_sound_op plan.now op ≡ true }
    requires each { length counts.old ≡ number plan.now }
    requires few { EachIndex counts.old (λ k. slice_index counts.old k < most_operations) }
    ensures { counts.new ≡ openings.post_counted plan.now op counts.old }
{
    if let Op::Post(task) = op {
        counts[plan.home(task).index()] += 1;
    }
}

/// The most lines that the programs can come to: one for each operation. A post has none of its own, and each line of
/// a drain is the wake of a post.
#[tactic(auto, using(std::proofs::lemmas::Grind::common_steps))]
pub(crate) fn lines(plan: &Plan) -> usize
    ensures { result ≡ openings.most_lines plan.now }
{
    let mut lines = 0;
    for caller in 0..plan.callers() {
        lines += plan.program(CpuId::numbered(caller)).len();
    }
    lines
}

/// The requests of callers of whom none has posted one, and for each caller that it has found none.
pub(crate) fn no_requests(
    alloc: Global,
    plan: &Plan,
) -> Result<(Requests, Vec<Option<TaskId>>), AllocError>
    ensures posts { IfOk result (λ r. openings.AreEmpty plan.now r.0) }
    ensures found { IfOk result (λ r. r.1.items ≡ replicate (number plan.now) None) }
{
    let posts = Requests::open(alloc, plan)?;
    let found = vec![in alloc; None; plan.callers()]?;
    Ok((posts, found))
}

/// The work at the start of a setup, and a history without lines that has room for so many.
pub(crate) fn nothing_done(
    alloc: Global,
    setup: &Setup,
    room: usize,
) -> Result<(Work, Journal), AllocError>
    ensures { IfOk result (λ d. recorded d.0 d.1
        ≡ done_at_start (start setup.now) (number (plan_of setup.now)) room) }
{
    let queues = Solo::open(alloc, setup)?.into_queues();
    let work = Work::open(alloc, queues)?;
    let journal = Journal::open(alloc, room)?;
    Ok((work, journal))
}
