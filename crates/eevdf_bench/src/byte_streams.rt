//! Reading the whole input, up to a limit, and writing the whole report.

ghost use Rattle.std.specs.Prelude.{◌≡◌, ◌≢◌, ◌+◌, ◌≤◌, ◌<◌, ◌⊎◌, length, take, true, false, vec_len, IfOk, OnOk, IfErr, OnErr, IfSome, Err};
ghost use Rattle.std.specs.Io.KnownBytes.{Appends, Keeps};
ghost use Rattle.eevdf_bench.specs.Streams.{ReadsPiece, ReadsTo, ReadsWithin, HasBegun};
ghost use Rattle.eevdf_workload.specs.Meaning.{read_limit};

use crate::watched::Watched;
use crate::workbench_fault::BenchFault;
use eevdf_workload::Workload;
use std::alloc::Global;
use std::io::{Read, Write};

/// One byte more than a workload may have: enough to see that there are too many.
const READ_LIMIT: usize = Workload::MOST_BYTES + 1;

/// The bytes of a reader that hasn't failed yet, read to its end, or to one byte past the limit of a workload and no further.
/// `Read` comes exactly where the reader fails, `Memory` where there is no room for the bytes.
pub fn read_input<R: Read>(alloc: Global, reader: &mut Watched<R>) -> Result<Vec<u8>, BenchFault>
    requires { reader.old.failed ≡ false }
    ensures bytes { IfOk result (λ input. IfSome (R.remaining reader.old.end)
        (λ all. input.items ≡ take read_limit all)) }
    ensures consumed { OnOk result (ReadsTo read_limit
        (R.remaining reader.old.end) (R.remaining reader.new.end)) }
    ensures limit { ReadsWithin read_limit
        (R.remaining reader.old.end) (R.remaining reader.new.end) }
    ensures whole { OnOk result (reader.new.failed ≡ false) }
    ensures failed { result ≡ Err BenchFault.Read → reader.new.failed ≡ true }
    ensures unfailed { IfErr result (λ f. f ≢ BenchFault.Read → reader.new.failed ≡ false) }
    ensures kinds { IfErr result (λ f. (f ≡ BenchFault.Read) ⊎ (f ≡ BenchFault.Memory)) }
{
    let mut input = Vec::new(alloc);
    while input.len() < READ_LIMIT {
        let count = read_more(reader, &mut input)?;
        if count == 0 {
            break;
        }
    }
    // what is spare would stay as long as the bytes
    input.shrink_to_fit();
    Ok(input)
}

/// Reads one piece onto the end of the input, and says how long it is.
fn read_more<R: Read>(reader: &mut Watched<R>, input: &mut Vec<u8>) -> Result<usize, BenchFault>
    requires room { vec_len input.old < READ_LIMIT }
    requires whole { reader.old.failed ≡ false }
    ensures { ReadsPiece result (R.remaining reader.old.end) (R.remaining reader.new.end)
        reader.new.failed input.old.items input.new.items }
{
    let mut buffer = [0u8; 8192];
    let room = (READ_LIMIT - input.len()).min(buffer.len());
    read_piece(reader, &mut buffer[..room], input)
}

/// The same through a buffer that isn't empty, and for which the input has room.
fn read_piece<R: Read>(
    reader: &mut Watched<R>,
    buffer: &mut [u8],
    input: &mut Vec<u8>,
) -> Result<usize, BenchFault>
    requires some { 0 < length buffer.old }
    requires room { vec_len input.old + length buffer.old ≤ READ_LIMIT }
    requires whole { reader.old.failed ≡ false }
    ensures { ReadsPiece result (R.remaining reader.old.end) (R.remaining reader.new.end)
        reader.new.failed input.old.items input.new.items }
{
    let count = match reader.read(buffer) {
        Ok(count) => count,
        Err(_) => return Err(BenchFault::Read),
    };
    input.extend_from_slice(&buffer[..count])?;
    Ok(count)
}

/// Writes a whole text to a writer that hasn't failed yet, and flushes. `Write` where the writer fails: a beginning of the text
/// is written then, the whole text where it was the flush that failed, and less where it was a write.
pub fn write_text<W: Write>(writer: &mut Watched<W>, text: &[u8]) -> Result<(), BenchFault>
    requires { writer.old.failed ≡ false }
    ensures written { OnOk result (Appends
        (W.contents writer.old.end) (W.contents writer.new.end) text.now) }
    ensures begun { OnErr result (HasBegun writer.new.flush_failed
        (W.contents writer.old.end) (W.contents writer.new.end) text.now) }
    ensures whole { OnOk result (writer.new.failed ≡ false) }
    ensures flushed { OnOk result (writer.new.flushed ≡ true) }
    ensures failed { OnErr result (writer.new.failed ≡ true) }
    ensures kind { IfErr result (λ f. f ≡ BenchFault.Write) }
{
    let mut done = 0;
    while done < text.len() {
        let taken = write_piece(writer, &text[done..])?;
        done += taken;
    }
    match writer.flush() {
        Ok(()) => Ok(()),
        Err(_) => Err(BenchFault::Write),
    }
}

/// Writes the front of a text, and says how long that is.
fn write_piece<W: Write>(writer: &mut Watched<W>, text: &[u8]) -> Result<usize, BenchFault>
    requires some { 0 < length text.now }
    requires whole { writer.old.failed ≡ false }
    ensures written { IfOk result (λ n. Appends
        (W.contents writer.old.end) (W.contents writer.new.end) (take n text.now)) }
    ensures some { IfOk result (λ n. 0 < n) }
    ensures within { IfOk result (λ n. n ≤ length text.now) }
    ensures whole { OnOk result (writer.new.failed ≡ false) }
    ensures kept { OnErr result (Keeps (W.contents writer.old.end) (W.contents writer.new.end)) }
    ensures write { writer.new.flush_failed ≡ false }
    ensures failed { OnErr result (writer.new.failed ≡ true) }
    ensures kind { IfErr result (λ f. f ≡ BenchFault.Write) }
{
    match writer.write(text) {
        Ok(0) | Err(_) => Err(BenchFault::Write),
        Ok(taken) => Ok(taken),
    }
}
