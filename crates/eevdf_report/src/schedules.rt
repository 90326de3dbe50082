//! The lines of the CPUs' schedules, found in one pass over the history.

ghost use Rattle.std.specs.Prelude.{◌≡◌, ℕ, ◌<◌, ◌++◌, [], length, map, IfOk, OnOk, slice_index_or};
ghost use Rattle.eevdf_report.specs.TextSchedules.{own_line, schedules_of};

use eevdf_ops::Line;
use std::alloc::{AllocError, Global};
use std::marker::Model;

/// The lines of each CPU's schedule.
#[derive(Drop)]
pub(crate) struct Schedules<'a> {
    lines: Vec<Vec<&'a Line>>,
}

impl<'a> Model for Schedules<'a> {
    ghost use Rattle.std.specs.Prelude.{ℕ, List, map};
    ghost use Rattle.eevdf_ops.specs.declared.deeds.Line.{Line};

    ghost Value = { List (List Line) };

    ghost view = { λ s. map (λ v. map (λ l. l.now) v.items) s.lines.items };
}

impl<'a> Schedules<'a> {
    /// The schedules of so many CPUs in a history. A line of any other CPU stands in none of them.
    pub(crate) fn of(
        alloc: Global,
        cpus: usize,
        lines: &'a [Line],
    ) -> Result<Schedules<'a>, AllocError>
        ensures { IfOk result (λ s. s ≡ schedules_of cpus lines.now) }
    {
        let average = lines.len() / cpus.max(1);
        let mut schedules = Schedules::empty(alloc, cpus, average + average / 8)?;
        for line in lines {
            schedules.push(line)?;
        }
        Ok(schedules)
    }

    /// The schedule of a CPU.
    pub(crate) fn schedule(&self, cpu: usize) -> &[&'a Line]
        requires { cpu < length self.now }
        ensures { map (λ l. l.now) result.now ≡ slice_index_or self.now cpu [] }
    {
        &self.lines[cpu]
    }

    /// The schedules of a history without lines, with room for so many lines in each.
    fn empty(alloc: Global, cpus: usize, room: usize) -> Result<Schedules<'a>, AllocError>
        ensures { IfOk result (λ s. s ≡ schedules_of cpus []) }
    {
        let mut lines = Vec::with_capacity(alloc, cpus)?;
        for _ in 0..cpus {
            lines.push(Vec::with_capacity(alloc, room)?)?;
        }
        Ok(Schedules { lines })
    }

    /// Adds a line to the schedule of its CPU.
    fn push(&mut self, line: &'a Line) -> Result<(), AllocError>
        ensures cpus { OnOk result (length self.new ≡ length self.old) }
        ensures each { OnOk result ((c : ℕ) → c < length self.old
            → slice_index_or self.new c [] ≡ slice_index_or self.old c [] ++ own_line c line.now) }
    {
        let cpu = line.deed.cpu().index();
        if let Some(lines) = self.lines.get_mut(cpu) {
            lines.push(line)?;
        }
        Ok(())
    }
}
