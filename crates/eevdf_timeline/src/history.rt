//! The history that is drawn.

ghost use Rattle.std.specs.Prelude.{◌≡◌, map, IfOk};
ghost use Rattle.eevdf_clocks.specs.Times.{moments_of};
ghost use Rattle.eevdf_timeline.specs.Histories.{IsHistoryOf, IsOutcomeOf};

use eevdf_bench::{BenchFault, Kind, RefusedDeeds};
use eevdf_clocks::Moment;
use eevdf_fleet::{OpenGate, run_all};
use eevdf_ops::one_thread::solo;
use eevdf_ops::{Line, Outcome};
use eevdf_scene::timed;
use eevdf_steps::play;
use eevdf_workload::{Key, LoadFault, Workload};
use std::alloc::Global;
use std::sync::Wait;
use std::thread::Threads;

/// The lines of a workload's script, of its order or of its programs run by threads, each with its time by the clocks (`eevdf_clocks`): the
/// deeds with the answers of the one thread that does them one after the other. A workload that lacks the part is refused as by `eevdf`, an
/// order with its fault; the only other refusals are `Memory`, and of a run that a thread was refused. The deeds of a script that were
/// refused are left in `refused`.
pub fn history_of<T: Threads + Wait + Sync>(
    rt: &T,
    alloc: Global,
    workload: &Workload,
    source: Kind,
    refused: &mut RefusedDeeds,
) -> Result<Vec<Moment>, BenchFault>
    ensures lines { IfOk result (λ moments.
        IsHistoryOf source workload.now (map (λ m. m.line) moments.items)) }
    ensures times { IfOk result (λ moments.
        moments.items ≡ moments_of (map (λ m. m.line) moments.items)) }
{
    let outcome = outcome_of(rt, alloc, workload, source)?;
    let moments = timed(alloc, outcome.history())?;
    note_refused(alloc, source, outcome.history(), refused);
    Ok(moments)
}

/// Leaves the deeds that were refused of these lines, where they are a script's.
fn note_refused(alloc: Global, source: Kind, lines: &[Line], refused: &mut RefusedDeeds) {
    if source == Kind::Solo {
        *refused = RefusedDeeds::of(alloc, lines);
    }
}

fn outcome_of<T: Threads + Wait + Sync>(
    rt: &T,
    alloc: Global,
    workload: &Workload,
    source: Kind,
) -> Result<Outcome, BenchFault>
    ensures { IfOk result (λ o. IsOutcomeOf source workload.now o) }
{
    match source {
        Kind::Solo => script_outcome(alloc, workload),
        Kind::Replay => order_outcome(alloc, workload),
        Kind::Run => run_outcome(rt, alloc, workload),
    }
}

fn script_outcome(alloc: Global, workload: &Workload) -> Result<Outcome, BenchFault>
    ensures { IfOk result (λ o. IsOutcomeOf Kind.Solo workload.now o) }
{
    let Some(deeds) = workload.script() else {
        return Err(BenchFault::Load(LoadFault::Missing { key: Key::Scripts }));
    };
    let outcome = solo(alloc, workload.setup(), deeds)?;
    Ok(outcome)
}

fn order_outcome(alloc: Global, workload: &Workload) -> Result<Outcome, BenchFault>
    ensures { IfOk result (λ o. IsOutcomeOf Kind.Replay workload.now o) }
{
    let Some(order) = workload.order() else {
        return Err(BenchFault::Load(LoadFault::Missing { key: Key::Orders }));
    };
    match play(alloc, workload.setup(), order) {
        Ok(outcome) => Ok(outcome),
        Err(fault) => Err(BenchFault::from(fault)),
    }
}

fn run_outcome<T: Threads + Wait + Sync>(
    rt: &T,
    alloc: Global,
    workload: &Workload,
) -> Result<Outcome, BenchFault>
    ensures { IfOk result (λ o. IsOutcomeOf Kind.Run workload.now o) }
{
    let outcome = run_all(rt, alloc, workload.setup(), &OpenGate)?;
    Ok(outcome)
}
