//! Laws of what is read: what the words of a workload are, and what its version decides.
ghost use Rattle.std.specs.Prelude.{◌≡◌, ◌<◌, ◌↔◌, true, Some};
ghost use Rattle.eevdf_ops.specs.{Numbers.cpu_limit, Origins.decider, Origins.origin_of, Signatures.arguments_of};
ghost use Rattle.eevdf_workload.specs.Versions.{limits_of};
ghost use Rattle.eevdf_workload.specs.Words.{deed_in, operation, words};
ghost use Rattle.eevdf_bench.specs.WordsPrinted.{AreInRange, IsOriginInRange, knows_deed, knows_operation, numbered_deed_text, operation_text};

use eevdf_ops::{Arguments, Deed, Op, Origin};
use eevdf_workload::Version;
pub use eevdf_workload::laws::{
    version_four_keeps_meaning, version_three_keeps_meaning, version_two_keeps_meaning,
};

/// A text is read in a version as an operation exactly where it is that operation as it is printed and the
/// version knows the operation.
pub fn operation_is_its_text(version: Version, text: &str, op: Op)
    ensures { (operation (limits_of version) (words text.now) ≡ Some op)
        ↔ ((text.now ≡ operation_text op) × (knows_operation version op ≡ true)) }
{
    operation_is_in_range(op);
}

/// A text is read in a version as a deed exactly where it is the number of its CPU, a space and the deed as it is
/// printed, and the version knows the deed.
pub fn deed_is_its_text(version: Version, text: &str, deed: Deed)
    ensures { (deed_in (limits_of version) (words text.now) ≡ Some deed)
        ↔ ((text.now ≡ numbered_deed_text deed) × (knows_deed version deed ≡ true)) }
{
    deed_is_in_range(deed);
}

/// The numbers that stand behind the verb of an operation are in the ranges of their types.
fn operation_is_in_range(op: Op)
    ensures { AreInRange (arguments_of op) }
{
    let (_verb, arguments) = op.signature();
    match arguments {
        Arguments::Nothing => {}
        Arguments::Time(ns) => {
            let _within = ns.get();
        }
        Arguments::Task(task) => {
            let _below = task.get();
        }
        Arguments::Level(task, nice) => {
            let _below = task.get();
            let _level = nice.get();
        }
        Arguments::State(task, nice, slice) | Arguments::NewTask(task, nice, slice) => {
            let _below = task.get();
            let _level = nice.get();
            let _length = slice.get();
        }
        Arguments::Source(source) => {
            let _below = source.get();
        }
    }
}

/// The numbers of a deed are in the ranges of their types.
fn deed_is_in_range(deed: Deed)
    ensures cpu { decider deed < cpu_limit }
    ensures origin { IsOriginInRange (origin_of deed) }
{
    let (cpu, origin) = deed.parts();
    let _below = cpu.get();
    match origin {
        Origin::Operation(operation) => operation_is_in_range(operation),
        Origin::Request { task, sender } => {
            let _known = task.get();
            let _sends = sender.get();
        }
    }
}
