//! From the bytes of a workload to what is written.

ghost use Rattle.std.specs.Prelude.{◌≡◌, false};

use crate::history::history_of;
use crate::progress::ProgressLine;
use crate::words::{Output, Words};
use eevdf_bench::{BenchFault, Watched, WorkloadText, read_input, read_workload, write_text};
use eevdf_clocks::Moment;
use eevdf_figures::{Counts, Figures, figures_of, html_of, json_of, table_of};
use eevdf_ops::{Setup, Solo};
use eevdf_page::page_of;
use eevdf_picture::picture_of;
use eevdf_race::race_of;
use eevdf_scene::{
    Lags, MOST_CURVES, Notes, Observer, Scale, Scene, Shown, Turns, observe, shown_of,
    stretch_table_of, turns_of,
};
use eevdf_trace_events::trace_of;
use std::alloc::{AllocError, Global};
use std::io::{Read, Write};
use std::sync::Wait;
use std::thread::Threads;

/// Why nothing, or not all, is drawn.
#[derive(Clone, Copy, PartialEq, Eq, Debug)]
pub(crate) enum DrawFault {
    Bench(BenchFault),
    /// The words choose this CPU or this task, which the workload hasn't.
    NoCpu(usize),
    NoTask(usize),
}

impl From<BenchFault> for DrawFault {
    fn from(fault: BenchFault) -> DrawFault {
        DrawFault::Bench(fault)
    }
}

impl From<AllocError> for DrawFault {
    fn from(_out_of_memory: AllocError) -> DrawFault {
        DrawFault::Bench(BenchFault::Memory)
    }
}

/// Reads a workload to its end, makes all of what the words ask for, and writes it. Faults are those of `eevdf`, and that the words choose
/// what the workload hasn't; nothing is written before all is made. The bytes that were read are left in `input`, and what is
/// told of them.
pub(crate) fn draw<T: Threads + Wait + Sync, R: Read, W: Write>(
    rt: &T,
    alloc: Global,
    reader: &mut Watched<R>,
    writer: &mut Watched<W>,
    words: &Words,
    progress: &ProgressLine,
    input: &mut WorkloadText,
) -> Result<(), DrawFault>
    requires reader { reader.old.failed ≡ false }
    requires writer { writer.old.failed ≡ false }
{
    input.bytes = read_input(alloc, reader)?;
    let text = text_of(rt, alloc, input, words, progress)?;
    write_text(writer, &text)?;
    Ok(())
}

fn text_of<T: Threads + Wait + Sync>(
    rt: &T,
    alloc: Global,
    input: &mut WorkloadText,
    words: &Words,
    progress: &ProgressLine,
) -> Result<Vec<u8>, DrawFault> {
    let workload = match read_workload(alloc, &input.bytes) {
        Ok(workload) => workload,
        Err(fault) => return Err(DrawFault::Bench(BenchFault::Load(fault))),
    };
    input.notes.has_unread_keys = workload.has_unread_keys();
    if let Some(cpu) = words.view.cpus.beyond(workload.setup().cpus()) {
        return Err(DrawFault::NoCpu(cpu));
    }
    if let Some(task) = words.view.tasks.beyond(workload.setup().tasks()) {
        return Err(DrawFault::NoTask(task));
    }
    let moments = history_of(rt, alloc, &workload, words.source, &mut input.notes.refused)?;
    let schedule = Schedule {
        setup: workload.setup(),
        moments: &moments,
        scale: scale_of(&moments, words),
        words,
        progress,
    };
    let text = match workload.order() {
        Some(order) if words.output == Output::Race => {
            race_of(alloc, workload.setup(), order, &moments, &words.view)?
        }
        _ => schedule.output(alloc)?,
    };
    Ok(text)
}

/// The moments of a workload that are drawn, and how.
#[derive(Clone, Copy)]
struct Schedule<'a> {
    setup: &'a Setup,
    moments: &'a [Moment],
    scale: Scale,
    words: &'a Words,
    progress: &'a ProgressLine,
}

impl Schedule<'_> {
    fn output(&self, alloc: Global) -> Result<Vec<u8>, AllocError> {
        match self.words.output {
            Output::Table => self.listed(alloc),
            Output::Figures => table_of(alloc, &self.counted(alloc)?),
            Output::Json => json_of(alloc, &self.counted(alloc)?),
            // a race without an order was refused before
            Output::Picture | Output::Trace | Output::Race => self.drawn(alloc),
            Output::Page => self.page(alloc),
        }
    }

    fn listed(&self, alloc: Global) -> Result<Vec<u8>, AllocError> {
        let turns = turns_of(alloc, self.setup, self.moments)?;
        stretch_table_of(alloc, &turns.stretches, &self.scale, &self.words.view)
    }

    fn counted(&self, alloc: Global) -> Result<Figures, AllocError> {
        let turns = turns_of(alloc, self.setup, self.moments)?;
        let mut counts = Counts::new(alloc, self.setup, self.scale)?;
        self.observe(alloc, &mut counts)?;
        self.figures(alloc, &mut counts, &turns)
    }

    fn figures(
        &self,
        alloc: Global,
        counts: &mut Counts,
        turns: &Turns,
    ) -> Result<Figures, AllocError> {
        counts.add_waits(&turns.rests);
        figures_of(alloc, counts, &self.words.view)
    }

    /// A picture or a trace.
    fn drawn(&self, alloc: Global) -> Result<Vec<u8>, AllocError> {
        let turns = turns_of(alloc, self.setup, self.moments)?;
        let mut shown = self.shown(alloc)?;
        let mut lags = self.lags(alloc, &mut shown)?;
        self.observe(alloc, &mut lags)?;
        let scene = self.scene(&turns, &lags, &shown);
        if self.words.output == Output::Trace {
            trace_of(alloc, &scene)
        } else {
            picture_of(alloc, &scene)
        }
    }

    /// A page, of which picture and figures are made as the deeds are done once.
    fn page(&self, alloc: Global) -> Result<Vec<u8>, AllocError> {
        let turns = turns_of(alloc, self.setup, self.moments)?;
        let mut shown = self.shown(alloc)?;
        let lags = self.lags(alloc, &mut shown)?;
        let counts = Counts::new(alloc, self.setup, self.scale)?;
        let mut both = LagsAndCounts { lags, counts };
        self.observe(alloc, &mut both)?;
        let figures = html_of(alloc, &self.figures(alloc, &mut both.counts, &turns)?)?;
        let scene = self.scene(&turns, &both.lags, &shown);
        page_of(alloc, &scene, self.words.file_name(), &figures)
    }

    fn observe<O: Observer>(&self, alloc: Global, observer: &mut O) -> Result<(), AllocError> {
        observe(alloc, self.setup, self.moments, observer, self.progress)
    }

    fn shown(&self, alloc: Global) -> Result<Shown, AllocError> {
        shown_of(
            alloc,
            self.setup,
            self.moments,
            self.scale,
            &self.words.view,
        )
    }

    /// The lags of those tasks that have curves, before the deeds are done.
    fn lags(&self, alloc: Global, shown: &mut Shown) -> Result<Lags, AllocError> {
        let tasks = shown.longest(alloc, MOST_CURVES)?;
        let notes = notes_of(self.words.output);
        Lags::new(alloc, self.setup, notes, &tasks, self.scale)
    }

    fn scene<'a>(&'a self, turns: &'a Turns, lags: &'a Lags, shown: &'a Shown) -> Scene<'a> {
        Scene {
            setup: self.setup,
            moments: self.moments,
            turns,
            lags,
            shown,
            scale: self.scale,
            view: &self.words.view,
        }
    }
}

/// What a page is made of.
#[derive(Drop)]
struct LagsAndCounts {
    lags: Lags,
    counts: Counts,
}

impl Observer for LagsAndCounts {
    fn begin(&mut self, solo: &Solo) -> Result<(), AllocError> {
        self.lags.begin(solo)?;
        self.counts.begin(solo)
    }

    fn before_deed(&mut self, solo: &Solo, moment: &Moment) -> Result<(), AllocError> {
        self.lags.before_deed(solo, moment)?;
        self.counts.before_deed(solo, moment)
    }

    fn after_deed(&mut self, solo: &Solo, moment: &Moment, place: usize) -> Result<(), AllocError> {
        self.lags.after_deed(solo, moment, place)?;
        self.counts.after_deed(solo, moment, place)
    }

    fn end(&mut self) {
        self.lags.end();
        self.counts.end();
    }
}

/// What is to be known of each deed, beside the lags and the loads.
fn notes_of(output: Output) -> Notes {
    match output {
        Output::Page => Notes::BeforeAndAfter,
        Output::Trace => Notes::After,
        Output::Picture | Output::Race | Output::Table | Output::Figures | Output::Json =>
            Notes::Nothing,
    }
}

/// From the beginning to the end of all that was done, where the words don't say another time.
fn scale_of(moments: &[Moment], words: &Words) -> Scale {
    let view = &words.view;
    let mut end = 0;
    for moment in moments {
        end = moment.end.max(end);
    }
    Scale {
        from: view.from,
        to: view.to.unwrap_or(end).max(view.from),
        page: words.width,
    }
}
