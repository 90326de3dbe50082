ghost use Rattle.std.specs.Prelude.{◌≡◌, Ok, option_map};
ghost use Rattle.eevdf_workload.specs.Meaning.{allowed};

use eevdf_ops::{Deed, Setup};
use std::marker::Model;

/// A workload: the setup of a machine, the order in which its callers are to take their steps and the deeds to be
/// done on it, if it lists them.
#[derive(Drop)]
pub struct Workload {
    setup: Setup,
    order: Option<Vec<usize>>,
    script: Option<Vec<Deed>>,
    has_unread_keys: bool,
}

impl Model for Workload {
    ghost use Rattle.std.specs.Prelude.{◌≡◌, Ok, option_map};
    ghost use Rattle.eevdf_workload.specs.Meaning as meant;

    ghost Value = { meant.Workload };

    ghost view = { λ w. record {
      setup = w.setup;
      order = option_map (λ ps. ps.items) w.order;
      script = option_map (λ ds. ds.items) w.script;
    } };

    ghost invariant = { λ w. meant.allowed w.setup (option_map (λ ds. ds.items) w.script) ≡ Ok tt };
}

impl Workload {
    ghost use Rattle.std.specs.Prelude.{option_map};

    /// A workload has at most so many bytes, in each version.
    pub const MOST_BYTES: usize = 16_777_216;

    /// There are at most so many programs, and the numbers of CPUs are below this, in version 1. In later versions both
    /// are `CpuId::COUNT`.
    pub const MOST_CPUS_IN_VERSION_ONE: u64 = 16;

    /// A script has at most so many deeds, from version 2 on.
    pub const MOST_DEEDS: usize = 640_000;

    /// A script has at most so many deeds, in version 1.
    pub const MOST_DEEDS_IN_VERSION_ONE: usize = 160_000;

    /// A workload of this setup, this order and this script. Whether its text had other keys, too, is no part of what it means.
    pub(crate) fn new(
        setup: Setup,
        order: Option<Vec<usize>>,
        script: Option<Vec<Deed>>,
        has_unread_keys: bool,
    ) -> Workload
        requires { allowed setup (option_map (λ ds. ds.items) script) ≡ Ok tt }
        ensures { result ≡ record {
          setup = setup;
          order = option_map (λ ps. ps.items) order;
          script = option_map (λ ds. ds.items) script;
        } }
    {
        Workload {
            setup,
            order,
            script,
            has_unread_keys,
        }
    }

    /// What the machine is set up from.
    pub fn setup(&self) -> &Setup
        ensures { result.now ≡ self.now.setup }
    {
        &self.setup
    }

    /// The callers in the order in which they are to take their steps, if the workload lists them.
    pub fn order(&self) -> Option<&[usize]>
        ensures { option_map (λ ps. ps.now) result ≡ self.now.order }
    {
        self.order.as_deref()
    }

    /// The deeds to be done on the machine, in order, if the workload lists any. The setup allows each.
    pub fn script(&self) -> Option<&[Deed]>
        ensures deeds { option_map (λ ds. ds.now) result ≡ self.now.script }
        ensures allowed { allowed self.now.setup self.now.script ≡ Ok tt }
    {
        self.script.as_deref()
    }

    /// Whether its text has a key that nothing reads, which `unread_keys` tells.
    pub fn has_unread_keys(&self) -> bool {
        self.has_unread_keys
    }
}
