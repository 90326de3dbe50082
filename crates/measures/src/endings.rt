//! How what is measured ends, by the program's exit status.

use std::io;

/// The status where the last line was printed, or where it couldn't be.
pub fn status_of(printed: io::Result<()>) -> u8 {
    match printed {
        Ok(()) => 0,
        Err(_) => 3,
    }
}

/// Says why nothing came of what the first word names, and gives the status.
pub fn fail(rt: &impl Eprint, what: &str, why: &str) -> u8 {
    let _ = eprintln!(rt; "measures {what}: {why}");
    3
}
