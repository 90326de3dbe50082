//! The work that the callers do on the queues.

ghost use Rattle.std.specs.Prelude.{◌≡◌, ◌<◌, ◌≤◌, length, replicate, vec_len, true, None, IfOk};
ghost use Rattle.std.specs.Prelude.{IfSome};
ghost use Rattle.eevdf_ops.specs.{Halves.CanTake, Halves.HasRoom};
ghost use Rattle.eevdf_ops.specs.{LocalActs.local_done, Machine.queue_at, Numbers.most_cpus};
ghost use Rattle.eevdf_ops.specs.{Outcome.machine_of, Places.places_in};
ghost use Rattle.eevdf_ops.specs.Places.{places as machine_places};
ghost use Rattle.eevdf_steps.specs.Places as places;
ghost use Rattle.eevdf_steps.specs.Work as work;

use crate::hand::Hand;
use crate::place::Place;
use eevdf_ops::pull::decide;
use eevdf_ops::{Answer, CpuId, LocalAct, Op, Putting, Taking};
use eevdf_queue::{Parcel, Queue, TaskId};
use std::alloc::{AllocError, Global};
use std::marker::Model;

/// The queues, the task in each caller's hand, and the answer that each caller keeps.
#[derive(Drop)]
pub(crate) struct Work {
    queues: Vec<Queue>,
    hands: Vec<Hand>,
    answers: Vec<Option<Answer>>,
}

impl Model for Work {
    ghost use Rattle.eevdf_ops.specs.Outcome.{machine_of};
    ghost use Rattle.eevdf_steps.specs.Work as work;
    ghost use Rattle.std.specs.Coded.{codes};
    ghost use Rattle.eevdf_queue.specs.Codes.{state_code};

    ghost Value = { work.Work };

    ghost coded = { Prim.hlevel (codes, state_code) };

    ghost view = { λ w. record {
      machine = machine_of w.queues.items;
      hands = w.hands.items;
      answers = w.answers.items;
    } };
}

impl Work {
    /// The work on these queues, with empty hands.
    pub(crate) fn open(alloc: Global, queues: Vec<Queue>) -> Result<Work, AllocError>
        ensures { IfOk result (λ w. w ≡ record {
          machine = machine_of queues.items;
          hands = replicate (vec_len queues) None;
          answers = replicate (vec_len queues) None;
        }) }
    {
        let hands = empty_hands(alloc, queues.len())?;
        let answers = vec![in alloc; None; queues.len()]?;
        Ok(Work {
            queues,
            hands,
            answers,
        })
    }

    /// The queues alone, by CPU.
    pub(crate) fn into_queues(self) -> Vec<Queue>
        ensures { machine_of result.items ≡ self.machine }
    {
        let Work {
            queues,
            hands: _,
            answers: _,
        } = self;
        queues
    }

    /// The queue of a CPU.
    pub(crate) fn queue(&self, cpu: CpuId) -> &Queue
        requires { cpu < length self.now.machine }
        ensures { result.now.state ≡ queue_at self.now.machine cpu }
    {
        &self.queues[cpu.index()]
    }

    /// The first place in which a task stands, where it stands in one.
    pub(crate) fn place_of(&self, task: TaskId) -> Option<Place>
        requires { length self.now.machine ≤ most_cpus }
        ensures { places.IsPlaceOf self.now task (places.places_of self.now task) result }
    {
        match self.queue_place(task) {
            Some(place) => Some(place),
            None => self.hand_place(task),
        }
    }

    #[tactic(auto, using(std::proofs::lemmas::Grind::common_steps))]
    fn queue_place(&self, task: TaskId) -> Option<Place>
        requires { length self.now.machine ≤ most_cpus }
        ensures { places.IsPlaceOf self.now task (machine_places self.now.machine task) result }
    {
        for at in 0..self.queues.len() {
            let cpu = CpuId::numbered(at);
            let queue = self.queue(cpu);
            if queue.entry(task).is_some() {
                return Some(Place::Runnable(cpu));
            }
            if queue.asleep(task) {
                return Some(Place::Asleep(cpu));
            }
        }
        None
    }

    fn hand_place(&self, task: TaskId) -> Option<Place>
        ensures { places.IsPlaceOf self.now task (places.hands_with self.now.hands task) result }
    {
        for caller in 0..self.hands.len() {
            if self.hands[caller].holds(task) {
                return Some(Place::InHand(caller));
            }
        }
        None
    }

    /// The answer that a caller keeps.
    pub(crate) fn answer(&self, cpu: CpuId) -> Option<Answer>
        requires { cpu < length self.now.answers }
        ensures { result ≡ work.answer self.now cpu }
    {
        self.answers[cpu.index()]
    }

    /// Does an operation that touches the caller's own queue alone, whatever the homes are, and keeps its answer. One that moves a task
    /// is done by `detach` and `put_in`.
    pub(crate) fn act(&mut self, cpu: CpuId, op: Op)
        requires queue { cpu < length self.old.machine }
        requires answer { cpu < length self.old.answers }
        ensures { self.new ≡ work.act self.old cpu op }
    {
        if let Some(act) = op.local() {
            let answer = self.apply(cpu, act);
            self.keep(cpu, answer);
        }
    }

    /// Does an act on the caller's own queue.
    pub(crate) fn apply(&mut self, cpu: CpuId, act: LocalAct) -> Answer
        requires { cpu < length self.old.machine }
        ensures answer { result ≡ (local_done act (queue_at self.old.machine cpu)).0 }
        ensures after { self.new ≡ work.with_queue self.old cpu
            (local_done act (queue_at self.old.machine cpu)).1 }
    {
        act.apply(&mut self.queues[cpu.index()])
    }

    /// Takes the task of an operation into the caller's hand, which is empty, unless the operation is refused.
    pub(crate) fn detach(&mut self, cpu: CpuId, op: Op)
        requires queue { cpu < length self.old.machine }
        requires answer { cpu < length self.old.answers }
        requires hand { cpu < length self.old.hands }
        requires empty { work.hand self.old cpu ≡ None }
        requires source { work.pulls_from (length self.old.machine) op ≡ true }
        ensures { self.new ≡ work.detach self.old cpu op }
    {
        match op {
            Op::Sleep(task) | Op::Doze(task) => self.take_out(cpu, cpu, Taking::Sleep(task)),
            Op::End(task) => self.take_out(cpu, cpu, Taking::End(task)),
            Op::Pull(source) => {
                let decided = decide(self.queue(cpu), self.queue(source));
                self.take_out(cpu, source, Taking::Pull(decided));
            }
            _ => {}
        }
    }

    /// Takes a task out of a queue into the caller's hand, which is empty, and keeps the answer.
    fn take_out(&mut self, cpu: CpuId, giver: CpuId, taking: Taking)
        requires queue { giver < length self.old.machine }
        requires answer { cpu < length self.old.answers }
        requires hand { cpu < length self.old.hands }
        requires empty { work.hand self.old cpu ≡ None }
        requires taking { CanTake taking (queue_at self.old.machine giver) }
        ensures { self.new ≡ work.take_out self.old cpu giver taking }
    {
        let (answer, parcel) = taking.take(&mut self.queues[giver.index()]);
        self.hands[cpu.index()] = Hand::of(parcel);
        self.keep(cpu, answer);
    }

    /// Puts the task in the caller's hand, where there is one, into a queue.
    pub(crate) fn put_in(&mut self, cpu: CpuId, taker: CpuId, putting: Putting)
        requires queue { taker < length self.old.machine }
        requires hand { cpu < length self.old.hands }
        requires nowhere { IfSome (work.hand self.old cpu) (λ p.
            places_in (queue_at self.old.machine taker) p.task ≡ 0) }
        requires room { IfSome (work.hand self.old cpu)
            (HasRoom putting (queue_at self.old.machine taker)) }
        ensures { self.new ≡ work.put_in self.old cpu taker putting (work.hand self.old cpu) }
    {
        let parcel = self.let_go(cpu);
        putting.put(&mut self.queues[taker.index()], parcel);
    }

    /// Takes the task out of the caller's hand.
    fn let_go(&mut self, cpu: CpuId) -> Option<Parcel>
        requires { cpu < length self.old.hands }
        ensures parcel { result ≡ work.hand self.old cpu }
        ensures after { self.new ≡ work.emptied self.old cpu }
    {
        self.hands[cpu.index()].take()
    }

    fn keep(&mut self, cpu: CpuId, answer: Answer)
        requires { cpu < length self.old.answers }
        ensures { self.new ≡ work.answered self.old cpu answer }
    {
        self.answers[cpu.index()] = Some(answer);
    }
}

#[tactic(auto, using(std::proofs::lemmas::Grind::common_steps))]
fn empty_hands(alloc: Global, callers: usize) -> Result<Vec<Hand>, AllocError>
    ensures { IfOk result (λ hands. hands.items ≡ replicate callers None) }
{
    let mut hands = Vec::with_capacity(alloc, callers)?;
    for _caller in 0..callers {
        hands.push(Hand::of(None))?;
    }
    Ok(hands)
}
