//! What is done at the ends of one ring.

ghost use Rattle.std.specs.Prelude.{◌≡◌, ◌<◌, ◌≤◌, ◌+◌, ◌++◌, [], ◌∷◌, length, slice_get};
ghost use Rattle.std.specs.Prelude.{vec_capacity, IfNone, IfOk, IfSome, IfErr, IsOk, OnErr, OnOk};
ghost use Rattle.rtrb.specs.Ring.{sent, known_free, producer_capacity, received, consumer_capacity, IsPair};
ghost use Rattle.rtrb.specs.Ring.{SameConsumer, SameProducer, ConsumerLooked, ProducerLooked};
ghost use Rattle.eevdf_fleet.specs.Board.{IsToken, claims_of, posts_of};
ghost use Rattle.eevdf_fleet.specs.PostClaims.{AreOnePosts, sent_in, with_post};
ghost use Rattle.eevdf_fleet.specs.Requests.{Allows, Grows, IsMarked, source_at, task_in, terms_in};
ghost use Rattle.eevdf_fleet.specs.declared.rings.request.Request.{Request};
ghost use Rattle.eevdf_fleet.specs.RingEnds.{free_in, taken_out};
ghost use Rattle.eevdf_fleet.specs.{Requests.tasks_of, RingEnds.posted_into, RingEnds.slots_for};

use crate::board::{NamedBoard, Token};
use crate::names::Names;
use crate::rings::RingFull;
use crate::rings::request::{AtHome, PopEnd, PushEnd, Request};
use atomic_table::Badge;
use eevdf_ops::CpuId;
use eevdf_queue::TaskId;
use rtrb::RingBuffer;
use std::alloc::{AllocError, Global};
use std::mem;

/// How many slots a ring has that has room for so many requests. One without room has one too, for its mark.
pub(super) fn slots_for(capacity: usize) -> usize
    ensures { result ≡ slots_for capacity }
{
    capacity.max(1)
}

/// Opens a sender's ring that leads to a home. Its mark goes through it at once, while both ends are here, so that each end has
/// the mark, and all slots are known to be free again.
pub(super) fn open_ring(
    alloc: Global,
    slots: usize,
    sender: usize,
    home: usize,
    homes: &Vec<CpuId>,
    board: &Token,
) -> Result<(PushEnd, PopEnd), AllocError>
    requires { 0 < slots }
    ensures pair { IfOk result (λ r. IsPair r.0 r.1) }
    ensures sent { IfOk result (λ r. IsMarked
        (source_at board.now.table_id (terms_in board.now.views) homes.now.items sender) home (sent r.0)) }
    ensures posted { IfOk result (λ r. posted_into r.0 ≡ []) }
    ensures free { IfOk result (λ r. known_free r.0 ≡ slots) }
    ensures slots { IfOk result (λ r. producer_capacity r.0 ≡ slots) }
    ensures received { IfOk result (λ r. IsMarked
        (source_at board.now.table_id (terms_in board.now.views) homes.now.items sender) home (received r.1)) }
    ensures taken { IfOk result (λ r. taken_out r.1 ≡ []) }
    ensures capacity { IfOk result (λ r. consumer_capacity r.1 ≡ slots) }
{
    let (mut producer, mut consumer) = RingBuffer::with_protocol::<Global, AtHome>(alloc, slots)?;
    producer.push_reserved(Request::mark(sender, home, homes, board));
    consumer.slots_beside(&mut producer);
    let _mark = consumer.pop_known();
    producer.slots_beside(&mut consumer);
    Ok((producer, consumer))
}

/// Pushes a request that the token's sender posts by this, or hands it back where the ring is full.
pub(super) fn push<N: Names>(
    producer: &mut PushEnd,
    board: &NamedBoard<N>,
    token: &mut Token,
    home: usize,
    task: TaskId,
) -> Result<(), RingFull>
    requires token { IsToken N.kit.board N.kit.terms token.old }
    requires posts { AreOnePosts (posts_of token.old) }
    requires follows { (r : Request) → r.task ≡ task → IsToken N.kit.board N.kit.terms r.token → claims_of r.token ≡ []
        → posts_of r.token ≡ sent_in (with_post (posts_of token.old) home task) → Allows (sent producer.old) r }
    ensures token { IsToken N.kit.board N.kit.terms token.new }
    ensures posted { OnOk result (posts_of token.new ≡ with_post (posts_of token.old) home task) }
    ensures not_posted { OnErr result (posts_of token.new ≡ posts_of token.old) }
    ensures ring { SameProducer producer.old producer.new }
    ensures accepted { OnOk result (Grows (sent producer.old) (sent producer.new) (task ∷ [])) }
    ensures refused { OnErr result (sent producer.new ≡ sent producer.old) }
    ensures given_back { IfErr result (λ full. full.task ≡ task) }
    ensures free { 0 < known_free producer.old → IsOk result }
    ensures fewer { OnOk result (known_free producer.old ≤ known_free producer.new + 1) }
    ensures full { OnErr result (known_free producer.new ≡ 0) }
    ensures none_free { OnErr result (known_free producer.old ≡ 0) }
    ensures room { known_free producer.old + length (sent producer.old)
        ≤ known_free producer.new + length (sent producer.new) }
{
    if producer.is_full() {
        return Err(RingFull { task });
    }
    let all = mem::replace(token, Badge::blank());
    let (sent, all) = board.post(all, home, task);
    *token = all;
    producer.push_reserved(Request::to_wake(task, sent));
    Ok(())
}

/// Looks how many requests fit, into a ring that has room for so many.
pub(super) fn free(producer: &mut PushEnd, capacity: usize) -> usize
    ensures looked { ProducerLooked producer.old producer.new }
    ensures free { result ≡ free_in capacity producer.new }
{
    producer.slots().min(capacity)
}

/// Looks how many requests fit, into a ring that has room for so many: the end that pops is here too, so what was popped is known.
pub(super) fn free_beside(producer: &mut PushEnd, consumer: &mut PopEnd, capacity: usize) -> usize
    requires { IsPair producer.old consumer.old }
    ensures looked { ProducerLooked producer.old producer.new }
    ensures consumer { ConsumerLooked consumer.old consumer.new }
    ensures free { result ≡ free_in capacity producer.new }
    ensures all { known_free producer.new + length (sent producer.old)
        ≡ producer_capacity producer.old + length (received consumer.old) }
    ensures fewer { length (received consumer.old) ≤ length (sent producer.old) }
{
    consumer.slots_beside(producer);
    producer.slots_beside(consumer).min(capacity)
}

/// Pops the oldest request that is in the ring, if one is seen.
pub(super) fn pop(consumer: &mut PopEnd) -> Option<Request>
    ensures ring { SameConsumer consumer.old consumer.new }
    ensures some { IfSome result (λ r.
        Grows (received consumer.old) (received consumer.new) (r.task ∷ [])) }
    ensures allowed { IfSome result (λ r. Allows (received consumer.old) r) }
    ensures none { IfNone result (received consumer.new ≡ received consumer.old) }
{
    match consumer.pop() {
        Ok(request) => Some(request),
        Err(_) => None,
    }
}

/// Pops the oldest request that is in the ring, if there is one: the end that pushes is here too.
pub(super) fn pop_beside(consumer: &mut PopEnd, producer: &mut PushEnd) -> Option<Request>
    requires { IsPair producer.old consumer.old }
    ensures ring { SameConsumer consumer.old consumer.new }
    ensures some { IfSome result (λ r.
        Grows (received consumer.old) (received consumer.new) (r.task ∷ [])) }
    ensures allowed { IfSome result (λ r. Allows (received consumer.old) r) }
    ensures none { IfNone result (received consumer.new ≡ received consumer.old) }
    ensures oldest { task_in result
        ≡ slice_get (tasks_of (sent producer.old)) (length (received consumer.old)) }
    ensures producer { ProducerLooked producer.old producer.new }
{
    if consumer.slots_beside(producer) == 0 {
        return None;
    }
    Some(consumer.pop_known())
}

/// Pops all requests that are in the ring, oldest first: the end that pushes is here too. It takes no memory.
pub(super) fn pop_rest(consumer: &mut PopEnd, producer: &mut PushEnd, left: &mut Vec<TaskId>)
    requires pair { IsPair producer.old consumer.old }
    requires empty { left.old.items ≡ [] }
    requires room { consumer_capacity consumer.old ≤ vec_capacity left.old }
    ensures ring { SameConsumer consumer.old consumer.new }
    ensures received { Grows (received consumer.old) (received consumer.new) left.new.items }
    ensures producer { ProducerLooked producer.old producer.new }
    ensures left { Grows (received consumer.old) (sent producer.old) left.new.items }
{
    let count = consumer.slots_beside(producer);
    for _ in 0..count {
        left.push_reserved(consumer.pop_known().task);
    }
}
