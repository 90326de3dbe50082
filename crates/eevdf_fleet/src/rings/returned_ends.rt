ghost use Rattle.std.specs.Prelude.{◌≡◌, ◌<◌, ◌≤◌, ◌++◌, [], ◌∷◌, length, map, IfOk};
ghost use Rattle.eevdf_ops.specs.Numbers.{most_cpus};
ghost use Rattle.eevdf_fleet.specs.Rings as rings;
ghost use Rattle.eevdf_fleet.specs.ReturnedEnds.{AreEmptyLists};

use crate::names::Names;
use crate::rings::consumer_ends::Consumers;
use crate::rings::producer_ends::Producers;
use crate::rings::ring_ends::slots_for;
use eevdf_queue::TaskId;
use std::alloc::{AllocError, Global};
use std::marker::Model;

/// The ends of all rings as they are given back, one CPU's after the other's, with room for what is left in the rings.
#[derive(Drop)]
pub(crate) struct ReturnedEnds<N: Names> {
    cpus: usize,
    producers: Vec<Producers<N>>,
    consumers: Vec<Consumers<N>>,
    left: Vec<Vec<TaskId>>,
}

impl<N: Names> Model for ReturnedEnds<N> {
    ghost use Rattle.std.specs.Prelude.{map};
    ghost use Rattle.eevdf_fleet.specs.Rings as rings;
    ghost use Rattle.eevdf_fleet.specs.ReturnedEnds.{HasRoom};

    ghost Value = { rings.Returned };

    ghost view = { λ r. record {
      cpus = r.cpus;
      posts = map rings.posted_by r.producers.items;
      takes = r.consumers.items;
    } };

    ghost invariant = { λ r.
        HasRoom N.kit.rings.capacity r.cpus r.producers r.consumers r.left.items };
}

impl<N: Names> ReturnedEnds<N> {
    /// Nothing given back yet, with room for the ends of this many CPUs and for what is left in their rings.
    pub(crate) fn open(
        alloc: Global,
        cpus: usize,
        capacity: usize,
    ) -> Result<ReturnedEnds<N>, AllocError>
        requires cpus { cpus ≤ most_cpus }
        requires capacity { capacity ≡ N.kit.rings.capacity }
        ensures { IfOk result (λ r. r ≡ record { cpus = cpus; posts = []; takes = [] }) }
    {
        let left = empty_lists(alloc, cpus * cpus, slots_for(capacity))?;
        Ok(ReturnedEnds {
            cpus,
            producers: Vec::with_capacity(alloc, cpus)?,
            consumers: Vec::with_capacity(alloc, cpus)?,
            left,
        })
    }

    /// Gives back the ends of the next CPU. It takes no memory.
    pub(crate) fn give_back(&mut self, producers: Producers<N>, consumers: Consumers<N>)
        requires posts { length self.old.posts < self.old.cpus }
        requires takes { length self.old.takes < self.old.cpus }
        ensures { self.new ≡ record self.old {
          posts = self.old.posts ++ rings.posted_by producers ∷ [];
          takes = self.old.takes ++ consumers ∷ [];
        } }
    {
        self.producers.push_reserved(producers);
        self.consumers.push_reserved(consumers);
    }

    /// What is left in the rings: of `n` CPUs the list from sender `q` to home `c` stands at place `q * n + c`. It takes
    /// no memory.
    pub(crate) fn into_left(self) -> Vec<Vec<TaskId>>
        requires { rings.AllReturned self }
        ensures { rings.AreLeft self (map (λ l. l.items) result.items) }
    {
        let ReturnedEnds {
            cpus,
            mut producers,
            mut consumers,
            mut left,
        } = self;
        for place in 0..cpus * cpus {
            let sender = place / cpus;
            let home = place % cpus;
            consumers[home].take_rest(&mut producers[sender], &mut left[place]);
        }
        left
    }
}

/// So many empty lists, each with room for so many requests.
fn empty_lists(alloc: Global, count: usize, capacity: usize) -> Result<Vec<Vec<TaskId>>, AllocError>
    ensures { IfOk result (λ lists. AreEmptyLists capacity count lists.items) }
{
    let mut lists = Vec::with_capacity(alloc, count)?;
    for _ in 0..count {
        lists.push(Vec::with_capacity(alloc, capacity)?)?;
    }
    Ok(lists)
}
