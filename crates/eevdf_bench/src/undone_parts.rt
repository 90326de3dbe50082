//! What a workload has and a command doesn't do.

use crate::command::Kind;
use crate::parts::Parts;

/// Which parts of a workload a command doesn't do, and which command does them, in a line. `None` where it does all.
pub fn undone_text(kind: Kind, parts: Parts) -> Option<&'static str> {
    match kind {
        Kind::Solo => undone_by_solo(parts),
        Kind::Replay if parts.script => {
            Some("not done: the script, which `eevdf solo` does; replay plays the order\n")
        }
        Kind::Replay => None,
        Kind::Run => undone_by_run(parts),
    }
}

fn undone_by_solo(parts: Parts) -> Option<&'static str> {
    match (parts.programs, parts.order) {
        (false, false) => None,
        (true, false) => Some(
            "not done: the programs, which `eevdf run` does; solo does the script\n",
        ),
        (_, true) => Some(
            "not done: the programs in their order, which `eevdf replay` plays; solo does the script\n",
        ),
    }
}

fn undone_by_run(parts: Parts) -> Option<&'static str> {
    match (parts.script, parts.order) {
        (false, false) => None,
        (true, false) => Some(
            "not done: the script, which `eevdf solo` does; run does the programs\n",
        ),
        (false, true) => Some(
            "not done: the order, which `eevdf replay` plays; run does the programs in none\n",
        ),
        (true, true) => Some(
            "not done: the script, which `eevdf solo` does, and the order, which `eevdf replay` plays; run does the programs\n",
        ),
    }
}
