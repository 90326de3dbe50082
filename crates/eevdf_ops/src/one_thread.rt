//! Running a list of deeds in one thread.

ghost use Rattle.std.specs.Prelude.{◌≡◌, ◌*◌, [], length, map, true, replicate, vec_len, IfOk};
ghost use Rattle.std.specs.Prelude.{OnOk};
ghost use Rattle.std.specs.List.{list_all};
ghost use Rattle.eevdf_ops.specs.Setup.{allows, cpus_of, homes_of, is_allowed};
ghost use Rattle.eevdf_ops.specs.Machine as machine;
ghost use Rattle.eevdf_ops.specs.{Outcome.machine_of, Places.IsPlaced, Whole.lines_of};
ghost use Rattle.eevdf_ops.specs.{Whole.machine_after};

use crate::deeds::{Deed, Line};
use crate::outcome::Outcome;
use crate::setup::Setup;
use crate::solo::Solo;
use eevdf_queue::TaskId;
use std::alloc::{AllocError, Global};

/// Does the deeds one after the other on the machine as the setup has it at the start. Afterwards too each
/// task stands in one place.
pub fn solo(alloc: Global, setup: &Setup, deeds: &[Deed]) -> Result<Outcome, AllocError>
    requires { list_all (allows setup.now) deeds.now ≡ true }
    ensures lines { IfOk result (λ o.
        o.lines ≡ lines_of (homes_of setup.now) (machine.start setup.now) deeds.now) }
    ensures machine { IfOk result (λ o. machine_of o.queues
        ≡ machine_after (homes_of setup.now) (machine.start setup.now) deeds.now) }
    ensures places { IfOk result (λ o. IsPlaced (homes_of setup.now) (machine_of o.queues)) }
    ensures left { IfOk result (λ o. o.left
        ≡ replicate (cpus_of setup.now * cpus_of setup.now) []) }
{
    let mut solo = Solo::open(alloc, setup)?;
    let lines = apply_all(alloc, &mut solo, deeds)?;
    let left = no_requests(alloc, setup.cpus() * setup.cpus())?;
    solo.keeps();
    Ok(Outcome::of(lines, solo.into_queues(), left))
}

/// Does the deeds, and gives each with its answer.
fn apply_all(alloc: Global, solo: &mut Solo, deeds: &[Deed]) -> Result<Vec<Line>, AllocError>
    requires { list_all (is_allowed (length solo.old.queues) solo.old.homes) deeds.now ≡ true }
    ensures lines { IfOk result (λ lines.
        lines.items ≡ lines_of solo.old.homes (machine_of solo.old.queues) deeds.now) }
    ensures machine { OnOk result (machine_of solo.new.queues
        ≡ machine_after solo.old.homes (machine_of solo.old.queues) deeds.now) }
    ensures homes { OnOk result (solo.new.homes ≡ solo.old.homes) }
    ensures cpus { OnOk result (length solo.new.queues ≡ length solo.old.queues) }
{
    let mut lines = Vec::with_capacity(alloc, deeds.len())?;
    for deed in deeds {
        let answer = solo.apply(*deed);
        lines.push(Line {
            deed: *deed,
            answer,
        })?;
    }
    Ok(lines)
}

fn no_requests(alloc: Global, pairs: usize) -> Result<Vec<Vec<TaskId>>, AllocError>
    ensures empty { IfOk result (λ left. map (λ l. l.items) left.items ≡ replicate pairs []) }
    ensures len { IfOk result (λ left. vec_len left ≡ pairs) }
{
    let mut left = Vec::with_capacity(alloc, pairs)?;
    for _pair in 0..pairs {
        left.push(Vec::new(alloc))?;
    }
    Ok(left)
}
