ghost use Rattle.std.specs.Prelude.{◌≡◌, IfOk};
ghost use Rattle.eevdf_orders.specs.FaultLines as lines;

use eevdf_bench::{BenchFault, Key, fault_text, status_of as bench_status_of};
use eevdf_tell::{fault_explanation, place_explanation};
use std::alloc::{AllocError, Global};

/// Why no workload was printed.
#[derive(Clone, Copy, PartialEq, Eq, Debug)]
pub enum PrintFault {
    /// The workload is refused, has no order of at most `MOST_PLACES` places, or reading, writing or memory failed.
    Bench(BenchFault),
    /// The workload has an order already.
    Ordered,
}

/// The line that is printed for a fault, with its end.
pub fn fault_line(alloc: Global, fault: &PrintFault) -> Result<Vec<u8>, AllocError>
    ensures { IfOk result (λ line. line.items ≡ lines.fault_line fault.now) }
{
    match fault {
        PrintFault::Bench(fault) => fault_text(alloc, fault),
        PrintFault::Ordered => {
            Ok(format!(in alloc; "fault: workload has an order already\n")?.into_bytes())
        }
    }
}

/// The program's status after a fault: 1 where the workload is refused, 3 where memory, reading or writing
/// failed.
pub fn status_of(fault: &PrintFault) -> u8
    ensures { result ≡ lines.status_of fault.now }
{
    match fault {
        PrintFault::Bench(fault) => bench_status_of(fault),
        PrintFault::Ordered => 1,
    }
}

/// What is wrong, and where in the workload that these bytes are, in lines; as `fault_explanation`.
pub fn explanation(
    alloc: Global,
    file: Option<&str>,
    input: &[u8],
    fault: &PrintFault,
) -> Option<String> {
    match fault {
        PrintFault::Bench(fault) => fault_explanation(alloc, file, input, fault),
        PrintFault::Ordered => place_explanation(
            alloc,
            file,
            input,
            Key::Orders,
            "this order is there already, and `eevdf replay` plays it",
        ),
    }
}
