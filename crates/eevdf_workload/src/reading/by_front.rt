//! Reading a workload of which lists stand in front: no tree is made of them.

ghost use Rattle.std.specs.Prelude.{◌≡◌, ◌⊎◌, List, ℕ, Option, true, is_some, Ok, Err, Some, None, codes, option_map, IfErr, IfOk, IfSome};
ghost use Rattle.std.specs.Option.{option_or};
ghost use Rattle.eevdf_workload.specs.Fronts.{described, programs_in, HasBesides, Holds, IsReadAs};
ghost use Rattle.eevdf_workload.specs.Meaning as meant;
ghost use Rattle.eevdf_workload.specs.MeaningSteps.{Reads};
ghost use Rattle.eevdf_workload.specs.Versions.{limits_of};
ghost use Rattle.eevdf_workload.specs.declared.load_fault.LoadFault.TheVariants.{Memory};
ghost use Rattle.toml.specs.Data.{Data, Members, get_member};
ghost use Rattle.toml.specs.Parse.{parse_document};
ghost use Rattle.toml.specs.View.{table_view};

use crate::load_fault::LoadFault;
use crate::reading::document_keys::member;
use crate::reading::front::{Front, front_of};
use crate::reading::lists::{order, programs, script};
use crate::reading::task_table::tasks;
use crate::reading::unread::has_unread_keys;
use crate::reading::{check_script, setup_of};
use crate::version::{Limits, Version};
use crate::workload::Workload;
use eevdf_ops::{Deed, Op};
use std::alloc::Global;
use toml::Table;

/// The workload that the bytes of a document describe, or the first fault in it, if its version and one of its lists stand in front of all
/// else. `None` where they don't, and where what is wrong is in the front or makes what stands behind it no document: the whole then tells.
pub(crate) fn workload_by_front(alloc: Global, bytes: &[u8]) -> Result<Option<Workload>, LoadFault>
    ensures value { IfOk result (λ found. IfSome found (λ w. described bytes.now ≡ Ok w)) }
    ensures fault { IfErr result (λ e. (e ≡ Memory) ⊎ (described bytes.now ≡ Err e)) }
{
    let Ok(text) = std::str::from_utf8(bytes) else {
        return Ok(None);
    };
    let Some(front) = front_of(alloc, text)? else {
        return Ok(None);
    };
    let Some(version) = front.version else {
        return Ok(None);
    };
    if front.order.is_none() && front.programs.is_none() && front.script.is_none() {
        return Ok(None);
    }
    // where nearly all stands behind the front, it saves next to nothing, and what is no document there would be read twice
    if front.left.len() > text.len() / 16 * 15 {
        return Ok(None);
    }
    let Some(document) = document_behind(alloc, &front)? else {
        return Ok(None);
    };
    match workload_beside(alloc, version, front, document) {
        Ok(workload) => Ok(Some(workload)),
        Err(fault) => Err(fault),
    }
}

/// The document behind a front, or `None` where it is none, or has a version, or a list that the front has.
fn document_behind(alloc: Global, front: &Front) -> Result<Option<Table>, LoadFault>
    ensures value { IfOk result (λ found. IfSome found (λ t.
        parse_document front.now.left.now ≡ Some (table_view t))) }
    ensures version { IfOk result (λ found. IfSome found (λ t.
        get_member (codes "version") (table_view t) ≡ None)) }
    ensures order { IfOk result (λ found. IfSome found (λ t.
        is_some front.now.order ≡ true → get_member (codes "order") (table_view t) ≡ None)) }
    ensures programs { IfOk result (λ found. IfSome found (λ t.
        is_some front.now.programs ≡ true → get_member (codes "program") (table_view t) ≡ None)) }
    ensures script { IfOk result (λ found. IfSome found (λ t.
        is_some front.now.script ≡ true → get_member (codes "script") (table_view t) ≡ None)) }
    ensures memory { IfErr result (λ e. e ≡ Memory) }
{
    match toml::table_from_str(alloc, front.left) {
        Ok(document) => {
            if lacks(&document, "version", true)
                && lacks(&document, "order", front.order.is_some())
                && lacks(&document, "program", front.programs.is_some())
                && lacks(&document, "script", front.script.is_some())
            {
                Ok(Some(document))
            } else {
                Ok(None)
            }
        }
        Err(error) if error.is_memory() => Err(LoadFault::Memory),
        Err(_) => Ok(None),
    }
}

/// Whether a document lacks a key, if the front has it.
fn lacks(document: &Table, name: &str, in_front: bool) -> bool
    ensures { result ≡ true → in_front ≡ true → get_member name.now (table_view document.now) ≡ None }
{
    if in_front {
        member(document, name).is_none()
    } else {
        true
    }
}

/// The workload that a document describes with what its front has besides, or the first fault in the whole. The front has none, so it is
/// behind it, or between the two. The script is read before the order, which takes the document, but a fault of the order comes first.
fn workload_beside(
    alloc: Global,
    version: Version,
    front: Front,
    document: Table,
) -> Result<Workload, LoadFault>
    ensures { (values : List ℕ → Option Data) (whole : Members)
        → Holds values (Some version) front.entry.order front.entry.programs front.entry.script
        → HasBesides values (table_view document) whole
        → Reads (λ w. w) (meant.workload_in (limits_of version) whole) result }
{
    let Front {
        version: _,
        order,
        programs,
        script,
        left: _,
    } = front;
    let limits = version.limits();
    let tasks = tasks(alloc, limits, &document)?;
    let programs = programs_beside(alloc, limits, programs, &document)?;
    let script = script_beside(alloc, limits, script, &document);
    let has_unread_keys = has_unread_keys(&document);
    let order = order_beside(alloc, order, document)?;
    let script = script?;
    let setup = setup_of(alloc, limits, &tasks, &programs)?;
    check_script(&setup, &script)?;
    Ok(Workload::new(setup, order, script, has_unread_keys))
}

/// The programs that were found in front, or else those of the document behind.
fn programs_beside(
    alloc: Global,
    limits: Limits,
    found: Option<Vec<Vec<Op>>>,
    document: &Table,
) -> Result<Vec<Vec<Op>>, LoadFault>
    ensures { (d : Option Data) (whole : Members)
        → IsReadAs (meant.programs_of limits) d (option_map (λ v. programs_in v) found)
        → get_member (codes "program") whole ≡ option_or d (get_member (codes "program") (table_view document.now))
        → Reads (λ v. programs_in v) (meant.programs limits whole) result }
{
    match found {
        Some(programs) => Ok(programs),
        None => programs(alloc, limits, document),
    }
}

/// The script that was found in front, or else that of the document behind.
fn script_beside(
    alloc: Global,
    limits: Limits,
    found: Option<Vec<Deed>>,
    document: &Table,
) -> Result<Option<Vec<Deed>>, LoadFault>
    ensures { (d : Option Data) (whole : Members)
        → IsReadAs (meant.script_of limits) d (option_map (λ v. v.items) found)
        → get_member (codes "script") whole ≡ option_or d (get_member (codes "script") (table_view document.now))
        → Reads (λ r. option_map (λ v. v.items) r) (meant.script limits whole) result }
{
    match found {
        Some(script) => Ok(Some(script)),
        None => script(alloc, limits, document),
    }
}

/// The order that was found in front, or else that of the document behind.
fn order_beside(
    alloc: Global,
    found: Option<Vec<usize>>,
    document: Table,
) -> Result<Option<Vec<usize>>, LoadFault>
    ensures { (d : Option Data) (whole : Members)
        → IsReadAs meant.order_of d (option_map (λ v. v.items) found)
        → get_member (codes "order") whole ≡ option_or d (get_member (codes "order") (table_view document))
        → Reads (λ r. option_map (λ v. v.items) r) (meant.order whole) result }
{
    match found {
        Some(order) => Ok(Some(order)),
        None => order(alloc, document),
    }
}
