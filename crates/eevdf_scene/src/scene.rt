//! All that a picture and a trace are made of.

use crate::lags::Lags;
use crate::scale::Scale;
use crate::shown::Shown;
use crate::stretches::Turns;
use crate::view::View;
use eevdf_clocks::Moment;
use eevdf_ops::Setup;

/// What is drawn.
#[derive(Clone, Copy)]
pub struct Scene<'a> {
    /// The machine's, by which there are CPUs and tasks.
    pub setup: &'a Setup,
    /// The whole history.
    pub moments: &'a [Moment],
    /// Its stretches and rests.
    pub turns: &'a Turns,
    /// What an observer of it has seen.
    pub lags: &'a Lags,
    /// What the time that is drawn shows.
    pub shown: &'a Shown,
    /// That time.
    pub scale: Scale,
    /// What is chosen.
    pub view: &'a View,
}
