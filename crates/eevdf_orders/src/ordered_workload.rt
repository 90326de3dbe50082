//! From the bytes of a workload to the same bytes with an order.

ghost use Rattle.std.specs.Prelude.{◌≡◌, ◌≢◌, false, true, IfOk, IfErr, IfSome, OnOk, Err, Ok};
ghost use Rattle.eevdf_bench.specs.Streams.{ReadsWithin};
ghost use Rattle.eevdf_orders.specs.OrderedWorkload as texts;
ghost use Rattle.eevdf_workload.specs.Meaning.{meaning, read_limit};

use crate::caller_choice::Choice;
use crate::order_making::{OrderFault, order_of};
use crate::order_text::ordered;
use crate::print_fault::PrintFault;
use eevdf_bench::{
    BenchFault, Notes, Parts, Watched, WorkloadText, read_input, read_workload, write_text,
};
use eevdf_steps::PlayFault;
use eevdf_workload::Workload;
use std::alloc::Global;
use std::io::{Read, Write};

/// Reads a workload from a reader that hasn't failed yet, and writes it with the order of its callers' steps that the seed
/// gives, or with the one in which they take turns where there is no seed. A workload that can't be read is refused with its
/// fault, one that has an order already with `Ordered`, and one of which every order has a fault with `Play(TooLong)`.
///
/// The bytes that were read are left in `input`, and what is told of them.
///
/// No more than `Workload::MOST_BYTES + 1` bytes are read. The fault `Read` comes exactly where the reader failed, `Write`
/// exactly where the writer did. The writer isn't called before the whole order is made: after `Write` a beginning was written,
/// the whole where it was the flush that failed, and after any other fault the writer is as it was.
pub fn print_ordered<R: Read, W: Write>(
    alloc: Global,
    reader: &mut Watched<R>,
    writer: &mut Watched<W>,
    seed: Option<u64>,
    input: &mut WorkloadText,
) -> Result<(), PrintFault>
    requires reader { reader.old.failed ≡ false }
    requires writer { writer.old.failed ≡ false }
    ensures printed { OnOk result (IfSome (R.remaining reader.old.end) (λ input.
        texts.Prints seed input (W.contents writer.old.end) (W.contents writer.new.end))) }
    ensures refused { IfErr result (λ f. IfSome (R.remaining reader.old.end) (λ input.
        texts.RefusesAs input f)) }
    ensures begun { result ≡ Err (PrintFault.Bench BenchFault.Write) →
        IfSome (R.remaining reader.old.end) (λ input. texts.Begins seed input writer.new.flush_failed
        (W.contents writer.old.end) (W.contents writer.new.end)) }
    ensures limit { ReadsWithin read_limit
        (R.remaining reader.old.end) (R.remaining reader.new.end) }
    ensures read_whole { OnOk result (reader.new.failed ≡ false) }
    ensures written_whole { OnOk result (writer.new.failed ≡ false) }
    ensures flushed { OnOk result (writer.new.flushed ≡ true) }
    ensures read { result ≡ Err (PrintFault.Bench BenchFault.Read) → reader.new.failed ≡ true }
    ensures unfailed { IfErr result (λ f. f ≢ PrintFault.Bench BenchFault.Read →
        reader.new.failed ≡ false) }
    ensures write { result ≡ Err (PrintFault.Bench BenchFault.Write) → writer.new.failed ≡ true }
    ensures unwritten { IfErr result (λ f. f ≢ PrintFault.Bench BenchFault.Write →
        writer.new ≡ writer.old) }
{
    let bytes = match read_input(alloc, reader) {
        Ok(bytes) => bytes,
        Err(fault) => return Err(PrintFault::Bench(fault)),
    };
    let ordered = ordered_text(alloc, &bytes, seed, &mut input.notes);
    input.bytes = bytes;
    let text = match ordered {
        Ok(text) => text,
        Err(fault) => return Err(fault),
    };
    match write_text(writer, &text) {
        Ok(()) => Ok(()),
        Err(fault) => Err(PrintFault::Bench(fault)),
    }
}

/// The bytes of a workload with the order of its callers' steps that the seed gives, and what is told of them.
fn ordered_text(
    alloc: Global,
    input: &[u8],
    seed: Option<u64>,
    notes: &mut Notes,
) -> Result<Vec<u8>, PrintFault>
    ensures ordered { IfOk result (λ text. texts.IsOrdered seed input.now text.items) }
    ensures refused { IfErr result (λ f. texts.RefusesAs input.now f) }
    ensures read { result ≢ Err (PrintFault.Bench BenchFault.Read) }
    ensures write { result ≢ Err (PrintFault.Bench BenchFault.Write) }
{
    match read_workload(alloc, input) {
        Ok(workload) => {
            notes.has_unread_keys = workload.has_unread_keys();
            notes.parts = Parts::of(&workload);
            with_order(alloc, &workload, input, seed)
        }
        Err(fault) => Err(PrintFault::Bench(BenchFault::Load(fault))),
    }
}

/// The same of the workload that these bytes mean.
fn with_order(
    alloc: Global,
    workload: &Workload,
    input: &[u8],
    seed: Option<u64>,
) -> Result<Vec<u8>, PrintFault>
    requires { meaning input.now ≡ Ok workload.now }
    ensures ordered { IfOk result (λ text. texts.IsOrdered seed input.now text.items) }
    ensures refused { IfErr result (λ f. texts.RefusesAs input.now f) }
    ensures read { result ≢ Err (PrintFault.Bench BenchFault.Read) }
    ensures write { result ≢ Err (PrintFault.Bench BenchFault.Write) }
{
    if workload.order().is_some() {
        return Err(PrintFault::Ordered);
    }
    let order = match order_of(alloc, workload.setup(), Choice::of_seed(seed)) {
        Ok(order) => order,
        Err(OrderFault::Memory) => return Err(PrintFault::Bench(BenchFault::Memory)),
        Err(OrderFault::TooLong) => {
            return Err(PrintFault::Bench(BenchFault::Play(PlayFault::TooLong)));
        }
    };
    match ordered(alloc, &order, input) {
        Ok(text) => Ok(text),
        Err(_) => Err(PrintFault::Bench(BenchFault::Memory)),
    }
}
