//! Which texts are deeds in which version, and of which meaning.

use crate::fixtures::{cpu, nice, ns, slice, task, wake};
use crate::known_texts::{ALL, FOUR, LAST_TWO, LATER, Meaning, check};
use crate::whole_machines::with_deed;
use eevdf_ops::Deed;
use eevdf_workload::{Key, LoadFault, Version, read_workload};
use std::alloc::Global;
use std::process::Abort;

impl Meaning for Deed {
    /// The first deed of the script is the text.
    fn read<A: Abort>(rt: &A, alloc: Global, version: Version, text: &str) -> Option<Deed> {
        let workload = with_deed(rt, alloc, version, text);
        match read_workload(alloc, workload.as_bytes()) {
            Ok(workload) => workload.script().and_then(|deeds| deeds.first().copied()),
            Err(
                LoadFault::BadValue {
                    key: Key::Script(0),
                },
            ) => None,
            Err(_) => panic!(rt; "another fault"),
        }
    }
}

#[test]
fn all_versions_know_these_deeds(rt: HostRuntime) {
    let (first, last) = (cpu(&rt, 0), cpu(&rt, 15));
    let tick = Deed::Tick {
        cpu: last,
        ns: ns(&rt, 1_000_000_000),
    };
    let sleep = Deed::Sleep {
        cpu: first,
        task: task(&rt, 1023),
    };
    let pull = Deed::Pull {
        cpu: first,
        source: last,
    };
    for (text, meant) in [
        ("15 tick 1000000000", tick),
        ("15 pick", Deed::Pick { cpu: last }),
        ("0 yield", Deed::Yield { cpu: first }),
        ("0 sleep 1023", sleep),
        ("0 wake 1023 from 15", wake(&rt, first, 1023, last)),
        ("0 pull 15", pull),
    ] {
        check(&rt, rt.alloc(), ALL, text, &meant);
    }
}

#[test]
fn later_versions_know_more_deeds(rt: HostRuntime) {
    let (first, next, last) = (cpu(&rt, 0), cpu(&rt, 16), cpu(&rt, 63));
    let renice = Deed::Renice {
        cpu: first,
        task: task(&rt, 1023),
        nice: nice(&rt, -5),
    };
    let pull = Deed::Pull {
        cpu: first,
        source: last,
    };
    for (text, meant) in [
        ("16 pick", Deed::Pick { cpu: next }),
        ("63 pick", Deed::Pick { cpu: last }),
        ("0 wake 1023 from 63", wake(&rt, first, 1023, last)),
        ("0 pull 63", pull),
        ("0 renice 1023 -5", renice),
    ] {
        check(&rt, rt.alloc(), LATER, text, &meant);
    }
}

#[test]
fn version_three_knows_more_deeds(rt: HostRuntime) {
    let (home, other) = (cpu(&rt, 0), cpu(&rt, 63));
    let task = task(&rt, 1023);
    let nice = nice(&rt, -5);
    let slice = slice(&rt, 100_000);
    let begin = Deed::Begin {
        cpu: home,
        task,
        nice,
        slice,
    };
    let set = Deed::Set {
        cpu: other,
        task,
        nice,
        slice,
    };
    for (text, meant) in [
        ("0 begin 1023 -5 100000", begin),
        ("63 end 1023", Deed::End { cpu: other, task }),
        ("63 set 1023 -5 100000", set),
        ("63 rebase", Deed::Rebase { cpu: other }),
    ] {
        check(&rt, rt.alloc(), LAST_TWO, text, &meant);
    }
}

/// A task dozes on any CPU, as it sleeps.
#[test]
fn version_four_knows_a_doze(rt: HostRuntime) {
    let task = task(&rt, 1023);
    let (home, other) = (cpu(&rt, 0), cpu(&rt, 63));
    for (text, meant) in [
        ("0 doze 1023", Deed::Doze { cpu: home, task }),
        ("63 doze 1023", Deed::Doze { cpu: other, task }),
    ] {
        check(&rt, rt.alloc(), FOUR, text, &meant);
    }
}

/// Every task has its home at CPU 0.
#[test]
fn a_task_begins_at_its_home_alone(rt: HostRuntime) {
    let read = Deed::read(&rt, rt.alloc(), Version::Three, "1 begin 1023 -5 100000");
    assert!(rt; read.is_none());
}
