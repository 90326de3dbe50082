//! An operation that may name what the setup hasn't.

ghost use Rattle.std.specs.Prelude.{◌≡◌, MatchOption, MatchResult, IfErr, Err};
ghost use Rattle.eevdf_fleet.specs.{Fleets.setup_of, Tried.IsOperated, Tried.IsRingFull, Tried.refusal};

use crate::fleet::{Fleet, SeatFull};
use crate::names::Names;
use crate::operated::{Operated, Refused};
use crate::seat::Seat;
use eevdf_ops::Op;
use std::sync::Wait;

impl<N: Names> Fleet<N> {
    /// Does an operation of a program with the seat where the setup allows it, and gives what the call of its own for it gives. Else the
    /// answer is `NoTask` where the setup hasn't the task that the operation names, `OtherHome` where a task that is to begin has its home
    /// at another CPU, `NoCpu` where the setup hasn't the CPU that a `Pull` is from, and `OwnCpu` where that is the seat's own.
    /// `SeatFull` where the setup allows the operation and the seat hasn't the room, and `RingFull` where the ring doesn't take a post. A
    /// refusal changes nothing.
    #[inline(always)]
    pub fn try_operate<R: Wait>(
        &self,
        rt: &R,
        seat: &mut Seat<N>,
        op: Op,
    ) -> Result<Operated, Refused>
        ensures refused { MatchOption (refusal (setup_of N.kit) seat.old op)
            (IfErr result (λ reason. IsRingFull N.kit seat.old op reason))
            (λ reason. result ≡ Err reason) }
        ensures cases { MatchResult result
            (λ operated. IsOperated (setup_of N.kit) op operated seat.old seat.new)
            (λ _. seat.new ≡ seat.old) }
        ensures cpu { seat.new.cpu ≡ seat.old.cpu }
    {
        if let Some(reason) = self.queues.not_allowed(seat.cpu(), &op) {
            return Err(reason);
        }
        // One place for all answers costs less than one for each.
        let answer = match op {
            Op::Tick(ns) => self.tick(rt, seat, ns),
            Op::Pick => self.pick(rt, seat),
            Op::Yield => self.yield_now(rt, seat),
            Op::Sleep(task) => self.sleep(rt, seat, task),
            Op::Doze(task) => self.doze(rt, seat, task),
            Op::Renice(task, nice) => self.renice(rt, seat, task, nice),
            Op::Pull(source) => self.pull(rt, seat, source),
            Op::Begin(task, nice, slice) => self.begin(rt, seat, task, nice, slice),
            Op::End(task) => self.end(rt, seat, task),
            Op::Set(task, nice, slice) => self.set(rt, seat, task, nice, slice),
            Op::Rebase => self.rebase(rt, seat),
            Op::Post(task) => {
                return match seat.post(task) {
                    Ok(()) => Ok(Operated::Posted),
                    Err(full) => Err(Refused::RingFull(full)),
                };
            }
            Op::Drain => {
                return match self.drain(rt, seat) {
                    Ok(drained) => Ok(Operated::Drained(drained)),
                    Err(SeatFull) => Err(Refused::SeatFull),
                };
            }
        };
        match answer {
            Ok(answer) => Ok(Operated::Answer(answer)),
            Err(SeatFull) => Err(Refused::SeatFull),
        }
    }
}
