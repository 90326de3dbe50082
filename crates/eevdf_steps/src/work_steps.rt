//! What the micro-steps of the callers do.

ghost use Rattle.std.specs.Prelude.{◌≡◌, ◌+◌, ◌*◌, ◌<◌, ◌≤◌, length, true, None};
ghost use Rattle.eevdf_steps.specs.Commits as commits;
ghost use Rattle.eevdf_steps.specs.Journals as journals;
ghost use Rattle.eevdf_steps.specs.MicroState as state;
ghost use Rattle.eevdf_steps.specs.Plan.{callers, is_sound_op};
ghost use Rattle.eevdf_steps.specs.PostLists as lists;
ghost use Rattle.eevdf_steps.specs.{SoundSteps.is_sound_micro};
ghost use Rattle.eevdf_steps.specs.Working.{FitsHand, HasRoom, IsWorking};
ghost use Rattle.eevdf_steps.specs.Work as steps;

use crate::journal::Journal;
use crate::micro::Micro;
use crate::plan::{Plan, Step};
use crate::requests::Requests;
use crate::work::Work;
use eevdf_ops::{Answer, CpuId, Deed, LocalAct, Op, Putting};
use eevdf_queue::TaskId;

/// Does a caller's micro-step on what it concerns: the queues, the history, the requests, or the request that the caller has
/// found. The locks are noted where the step is counted (`Callers::advance`).
#[tactic(auto, using(std::proofs::lemmas::Grind::common_steps))]
pub(crate) fn do_micro(
    work: &mut Work,
    journal: &mut Journal,
    posts: &mut Requests,
    found: &mut Option<TaskId>,
    plan: &Plan,
    cpu: CpuId,
    step: &Step,
)
    requires caller { cpu < callers plan.now }
    requires op { is_sound_op plan.now step.now.op ≡ true }
    requires micro { is_sound_micro plan.now step.now.micro ≡ true }
    requires work { IsWorking work.old cpu (state.home_for plan.now cpu step.now.op) }
    requires source { steps.pulls_from (length work.old.machine) step.now.op ≡ true }
    requires hand { FitsHand work.old cpu step.now.op step.now.micro }
    requires room { length journal.old.lines
        + length (state.appends work.old cpu step.now.op step.now.micro found.old) ≤ journal.old.room }
    requires each { length posts.old ≡ callers plan.now * callers plan.now }
    requires post { lists.has_room
        (lists.list_at posts.old (lists.place_of plan.now cpu step.now.micro)) step.now.micro ≡ true }
    ensures work { work.new ≡ state.works (state.home_for plan.now cpu step.now.op) work.old
        cpu step.now.op step.now.micro found.old }
    ensures journal { journal.new ≡ journals.noted journal.old
        (commits.committed found.old cpu step.now.op step.now.micro)
        (state.answers work.old cpu step.now.micro found.old) }
    ensures posts { posts.new
        ≡ lists.posts_after (lists.place_of plan.now cpu step.now.micro) step.now.micro posts.old }
    ensures found { found.new ≡ lists.request_after
        (lists.place_of plan.now cpu step.now.micro) step.now.micro posts.old found.old }
{
    match step.micro {
        Micro::Acquire(_) | Micro::Release(_) => {}
        Micro::Act => work.act(cpu, step.op),
        Micro::Detach => work.detach(cpu, step.op),
        Micro::Attach => attach(work, plan, cpu, step.op),
        Micro::Commit => commit(journal, step.op.on(cpu), work.answer(cpu)),
        Micro::Take(sender) => *found = posts.take(plan.pair(sender, cpu)),
        Micro::Settle(sender) => settle(work, journal, found, cpu, sender),
        Micro::Post(task) => posts.post(plan.pair(cpu, plan.home(task)), task),
    }
}

/// Puts down the task in the caller's hand where its operation puts it.
#[tactic(auto, using(std::proofs::lemmas::Grind::common_steps))]
fn attach(work: &mut Work, plan: &Plan, cpu: CpuId, op: Op)
    requires op { is_sound_op plan.now op ≡ true }
    requires work { IsWorking work.old cpu (state.home_for plan.now cpu op) }
    requires room { HasRoom work.old cpu op }
    ensures { work.new ≡ steps.attach (state.home_for plan.now cpu op) work.old cpu op }
{
    match op {
        Op::Sleep(task) | Op::End(task) => work.put_in(cpu, plan.home(task), Putting::Asleep),
        Op::Doze(task) => {
            let home = plan.home(task);
            work.put_in(cpu, home, Putting::dozing(cpu, home));
        }
        Op::Pull(_) => work.put_in(cpu, cpu, Putting::Runnable),
        _ => {}
    }
}

/// Adds a deed to the history with its answer, where there are both.
fn commit(journal: &mut Journal, deed: Option<Deed>, answer: Option<Answer>)
    requires { length journal.old.lines + length (state.line_of deed answer) ≤ journal.old.room }
    ensures { journal.new ≡ journals.noted journal.old deed answer }
{
    if let (Some(deed), Some(answer)) = (deed, answer) {
        journal.add(deed, answer);
    }
}

/// Does the wake that the caller has found, where it has found one, and adds it to the history with its answer.
fn settle(
    work: &mut Work,
    journal: &mut Journal,
    found: &mut Option<TaskId>,
    cpu: CpuId,
    sender: CpuId,
)
    requires caller { cpu < length work.old.machine }
    requires room { length journal.old.lines + length (state.line_of
        (commits.wake_of cpu sender found.old) (state.settled_answer work.old cpu found.old))
        ≤ journal.old.room }
    ensures work { work.new ≡ state.settled work.old cpu found.old }
    ensures journal { journal.new ≡ journals.noted journal.old
        (commits.wake_of cpu sender found.old) (state.settled_answer work.old cpu found.old) }
    ensures found { found.new ≡ None }
{
    if let Some(task) = found.take() {
        let answer = work.apply(cpu, LocalAct::Wake { task, sender });
        journal.add(Deed::Wake { cpu, task, sender }, answer);
    }
}
