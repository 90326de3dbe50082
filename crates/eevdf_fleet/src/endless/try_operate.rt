//! An operation that may name what the setup hasn't.

ghost use Rattle.std.specs.Prelude.{◌≡◌, MatchOption, MatchResult, IfErr, Err};
ghost use Rattle.eevdf_fleet.specs.{Fleets.setup_of, Tried.not_allowed};
ghost use Rattle.eevdf_fleet.specs.EndlessTried.{IsOperated, IsRingFull};

use crate::endless::fleet::Fleet;
use crate::endless::seat::Seat;
use crate::names::Names;
use crate::operated::{Operated, Refused};
use eevdf_ops::Op;
use std::sync::Wait;

impl<N: Names> Fleet<N> {
    /// Does an operation of a program with the seat where the setup allows it, and gives what the call of its own for it gives. Else the
    /// answer is `NoTask` where the setup hasn't the task that the operation names, `OtherHome` where a task that is to begin has its home
    /// at another CPU, `NoCpu` where the setup hasn't the CPU that a `Pull` is from, and `OwnCpu` where that is the seat's own.
    /// `RingFull` where the setup allows a post and the ring doesn't take it. A refusal changes nothing.
    #[inline(always)]
    pub fn try_operate<R: Wait>(
        &self,
        rt: &R,
        seat: &mut Seat<N>,
        op: Op,
    ) -> Result<Operated, Refused>
        ensures refused { MatchOption (not_allowed (setup_of N.kit) seat.old.cpu op)
            (IfErr result (λ reason. IsRingFull (setup_of N.kit) seat.old op reason))
            (λ reason. result ≡ Err reason) }
        ensures cases { MatchResult result
            (λ operated. IsOperated (setup_of N.kit) op operated seat.old seat.new)
            (λ _. seat.new ≡ seat.old) }
        ensures cpu { seat.new.cpu ≡ seat.old.cpu }
    {
        if let Some(reason) = self.queues.not_allowed(seat.cpu(), &op) {
            return Err(reason);
        }
        let answer = match op {
            Op::Tick(ns) => self.tick(rt, seat, ns),
            Op::Pick => self.pick(rt, seat),
            Op::Yield => self.yield_now(rt, seat),
            Op::Sleep(task) => self.sleep(rt, seat, task),
            Op::Doze(task) => self.doze(rt, seat, task),
            Op::Renice(task, nice) => self.renice(rt, seat, task, nice),
            Op::Pull(source) => self.pull(rt, seat, source),
            Op::Begin(task, nice, slice) => self.begin(rt, seat, task, nice, slice),
            Op::End(task) => self.end(rt, seat, task),
            Op::Set(task, nice, slice) => self.set(rt, seat, task, nice, slice),
            Op::Rebase => self.rebase(rt, seat),
            Op::Post(task) => {
                return match seat.post(task) {
                    Ok(()) => Ok(Operated::Posted),
                    Err(full) => Err(Refused::RingFull(full)),
                };
            }
            Op::Drain => return Ok(Operated::Drained(self.drain(rt, seat))),
        };
        Ok(Operated::Answer(answer))
    }
}
