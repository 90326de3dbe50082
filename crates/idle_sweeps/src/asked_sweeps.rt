use drawn_values::count_of;
use eevdf_ops::CpuId;

/// How many CPUs and sweeps the program's words ask for.
#[derive(Clone, Copy)]
pub struct AskedSweeps {
    pub cpus: usize,
    pub sweeps: u64,
}

impl AskedSweeps {
    /// The sweeps that the words ask for, of which the first is the program's name. `None` where they aren't a number of CPUs, of which
    /// there are two at least, and one of sweeps.
    pub fn of(words: &[String]) -> Option<AskedSweeps> {
        let [_, cpus, sweeps] = words else {
            return None;
        };
        let cpus = count_of(cpus.as_str(), CpuId::COUNT as u64)? as usize;
        let sweeps = count_of(sweeps.as_str(), 1_000_000)?;
        if cpus < 2 {
            return None;
        }
        Some(AskedSweeps { cpus, sweeps })
    }
}
