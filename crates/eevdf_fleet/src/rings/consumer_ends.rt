use crate::names::Names;
use crate::rings::producer_ends::Producers;
use crate::rings::request::{PopEnd, Request};
use crate::rings::ring_ends::{free_beside, pop, pop_beside, pop_rest};
use eevdf_queue::TaskId;
use std::marker::{Model, PhantomData};

/// The ends at which a home takes the requests that were posted to it, one for each sender.
#[derive(Drop)]
pub(crate) struct Consumers<N: Names> {
    home: usize,
    ends: Vec<PopEnd>,
    of: PhantomData<N>,
}

impl<N: Names> Model for Consumers<N> {
    ghost use Rattle.eevdf_fleet.specs.RingEnds.{takes, AreConsumers};
    ghost use Rattle.eevdf_fleet.specs.Rings as rings;

    ghost Value = { rings.Takes };

    ghost view = { λ c. takes c.home c.ends.items };

    ghost invariant = { λ c.
        AreConsumers N.kit.rings c.home c.ends.items };
}

impl<N: Names> Consumers<N> {
    ghost use Rattle.std.specs.Prelude.{◌≡◌, ◌+◌, ◌<◌, ◌≤◌, ◌++◌, [], ◌∷◌, length, vec_capacity, IfNone};
    ghost use Rattle.std.specs.Prelude.{IfSome};
    ghost use Rattle.eevdf_fleet.specs.Requests.{Follows, task_in};
    ghost use Rattle.eevdf_fleet.specs.Rings as rings;
    ghost use Rattle.eevdf_fleet.specs.RingEnds.{slots_for, takes, AreConsumers};

    /// The ends of a home's rings.
    pub(super) fn new(home: usize, ends: Vec<PopEnd>) -> Consumers<N>
        requires { AreConsumers N.kit.rings home ends.items }
        ensures { result ≡ takes home ends.items }
    {
        Consumers {
            home,
            ends,
            of: PhantomData,
        }
    }

    /// Takes the oldest request of a sender that wasn't taken yet: of those that the home posted to itself if there
    /// is one, of another sender's if one is seen. The producers are the home's own. It takes no memory.
    pub(crate) fn take(&mut self, producers: &mut Producers<N>, sender: usize) -> Option<Request>
        requires own { producers.old.sender ≡ self.old.home }
        requires home { self.old.home < length producers.old.posted }
        requires sender { sender < length self.old.taken }
        ensures some { IfSome result (λ r. self.new
            ≡ rings.taken_more self.old sender (r.task ∷ [])) }
        ensures none { IfNone result (self.new ≡ self.old) }
        ensures follows { IfSome result (λ r. Follows (rings.source_of N.kit.rings sender)
            self.old.home (rings.taken_from self.old sender) r) }
        ensures own { sender ≡ self.old.home → task_in result ≡ rings.oldest producers.old self.old }
        ensures producers { rings.HasLooked self.old.home producers.old producers.new }
    {
        if sender == self.home {
            self.take_own(producers)
        } else {
            self.take_seen(sender)
        }
    }

    /// Takes the oldest request of a sender that wasn't taken yet, if one is seen.
    fn take_seen(&mut self, sender: usize) -> Option<Request>
        requires { sender < length self.old.taken }
        ensures some { IfSome result (λ r. self.new
            ≡ rings.taken_more self.old sender (r.task ∷ [])) }
        ensures none { IfNone result (self.new ≡ self.old) }
        ensures follows { IfSome result (λ r. Follows (rings.source_of N.kit.rings sender)
            self.old.home (rings.taken_from self.old sender) r) }
    {
        pop(&mut self.ends[sender])
    }

    /// Takes the oldest request that the home posted to itself and that wasn't taken yet, if there is one.
    fn take_own(&mut self, producers: &mut Producers<N>) -> Option<Request>
        requires own { producers.old.sender ≡ self.old.home }
        requires home { self.old.home < length producers.old.posted }
        requires sender { self.old.home < length self.old.taken }
        ensures some { IfSome result (λ r. self.new
            ≡ rings.taken_more self.old self.old.home (r.task ∷ [])) }
        ensures none { IfNone result (self.new ≡ self.old) }
        ensures follows { IfSome result (λ r. Follows (rings.source_of N.kit.rings self.old.home)
            self.old.home (rings.taken_from self.old self.old.home) r) }
        ensures oldest { task_in result ≡ rings.oldest producers.old self.old }
        ensures producers { rings.HasLooked self.old.home producers.old producers.new }
    {
        let home = self.home;
        pop_beside(&mut self.ends[home], &mut producers.ends[home])
    }

    /// Looks how many requests more the home can post to itself: as many as there is room for beside those that weren't taken yet.
    pub(crate) fn free_own(&mut self, producers: &mut Producers<N>) -> usize
        requires own { producers.old.sender ≡ self.old.home }
        requires home { self.old.home < length producers.old.posted }
        requires sender { self.old.home < length self.old.taken }
        ensures takes { self.new ≡ self.old }
        ensures producers { rings.HasLooked self.old.home producers.old producers.new }
        ensures free { result ≡ rings.free_to producers.new self.old.home }
        ensures all { 0 < N.kit.rings.capacity → result + length (rings.posted_to producers.old self.old.home)
            ≡ N.kit.rings.capacity + length (rings.taken_from self.old self.old.home) }
    {
        let home = self.home;
        let capacity = producers.capacity;
        free_beside(&mut producers.ends[home], &mut self.ends[home], capacity)
    }

    /// Takes all requests of a sender that weren't taken yet, oldest first. It takes no memory.
    pub(super) fn take_rest(&mut self, producers: &mut Producers<N>, left: &mut Vec<TaskId>)
        requires home { self.old.home < length producers.old.posted }
        requires sender { producers.old.sender < length self.old.taken }
        requires empty { left.old.items ≡ [] }
        requires room { slots_for N.kit.rings.capacity ≤ vec_capacity left.old }
        ensures taken { self.new ≡ rings.taken_more self.old producers.old.sender left.new.items }
        ensures left { rings.posted_to producers.old self.old.home
            ≡ rings.taken_from self.old producers.old.sender ++ left.new.items }
        ensures producers { rings.HasLooked self.old.home producers.old producers.new }
    {
        let home = self.home;
        let sender = producers.sender;
        pop_rest(&mut self.ends[sender], &mut producers.ends[home], left);
    }
}
