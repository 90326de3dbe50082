ghost use Rattle.std.specs.Prelude.{◌≡◌, IfOk, string_bytes};
ghost use Rattle.eevdf_workload.specs.FaultTexts as workload_texts;
ghost use Rattle.eevdf_bench.specs.TextFault as texts;

use crate::workbench_fault::BenchFault;
use eevdf_ops::SetupFault;
use eevdf_steps::PlayFault;
use eevdf_workload::{LoadFault, Workload};
use std::alloc::{AllocError, Global};

/// The line that is printed for a fault, with its end.
pub fn fault_text(alloc: Global, fault: &BenchFault) -> Result<Vec<u8>, AllocError>
    ensures { IfOk result (λ text. text.items ≡ texts.fault_line fault.now) }
{
    let text = bench_fault_text(alloc, fault)?;
    Ok(format!(in alloc; "fault: {text}\n")?.into_bytes())
}

// No clause says what a derived `Display` writes. So the texts of the two faults that have one are written here too.
fn bench_fault_text(alloc: Global, fault: &BenchFault) -> Result<String, AllocError>
    ensures { IfOk result (λ text. string_bytes text ≡ texts.bench_fault_text fault.now) }
{
    match fault {
        BenchFault::Load(fault) => load_fault_text(alloc, fault),
        BenchFault::Play(fault) => fault.to_string(alloc),
        BenchFault::Run(fault) => fault.to_string(alloc),
        BenchFault::Read => "reading".to_string(alloc),
        BenchFault::Write => "writing".to_string(alloc),
        BenchFault::Memory => "memory".to_string(alloc),
    }
}

fn load_fault_text(alloc: Global, fault: &LoadFault) -> Result<String, AllocError>
    ensures { IfOk result (λ text. string_bytes text ≡ workload_texts.load_fault_text fault.now) }
{
    match fault {
        LoadFault::TooLarge => {
            format!(in alloc; "workload longer than {} bytes", Workload::MOST_BYTES)
        }
        LoadFault::NotToml => "not a TOML document".to_string(alloc),
        LoadFault::Missing { key } => format!(in alloc; "missing {key}"),
        LoadFault::BadValue { key } => format!(in alloc; "bad value at {key}"),
        LoadFault::Setup(fault) => fault.to_string(alloc),
        LoadFault::Memory => "memory".to_string(alloc),
    }
}

/// The program's status after a fault: 1 where the workload or its order is refused, 3 where memory, a thread, reading or
/// writing failed.
pub fn status_of(fault: &BenchFault) -> u8
    ensures { result ≡ texts.status_of fault.now }
{
    match fault {
        BenchFault::Load(LoadFault::Memory) => 3,
        BenchFault::Load(LoadFault::Setup(SetupFault::Memory)) => 3,
        BenchFault::Play(PlayFault::Memory) => 3,
        BenchFault::Load(_) | BenchFault::Play(_) => 1,
        BenchFault::Run(_) | BenchFault::Read | BenchFault::Write | BenchFault::Memory => 3,
    }
}
