//! What stands above the lanes: what is shown, what is drawn coarser, and the legend.

use std::alloc::{AllocError, Global};

/// How wide a letter is at most, in units of the picture, and one of the first line.
const LETTER: u64 = 7;

const LARGE_LETTER: u64 = 9;

/// Where lines begin, in units.
const LEFT: u64 = 10;

/// How far a line is below the one before it, in units.
const LINE: u64 = 18;

/// From the beginning of an entry of the legend to its words, and from these to the next entry, in units.
const KEY: u64 = 24;

const BETWEEN: u64 = 14;

/// From the last line to the first lane, in units.
const BELOW: u64 = 24;

/// What an entry of the legend shows beside its words.
#[derive(Clone, Copy)]
pub(crate) enum Key {
    /// The shape of a mark.
    Sign(&'static str),
    /// An arrow of a class.
    Arrow(&'static str),
    /// A box of a class.
    Box(&'static str),
    /// A box with the fill of a task.
    Fill(u64),
}

/// The lines above the lanes.
#[derive(Drop)]
pub(crate) struct Head {
    text: String,
    page: u64,
    // the base of the last line
    base: u64,
    // where the next entry of the legend begins, if it has room there
    next: u64,
}

impl Head {
    /// No lines yet, of a picture so wide.
    pub(crate) fn new(alloc: Global, page: u64) -> Head {
        Head {
            text: String::new(alloc),
            page,
            base: 4,
            next: page,
        }
    }

    pub(crate) fn text(&self) -> &str {
        self.text.as_str()
    }

    /// The top of what stands below it.
    pub(crate) fn bottom(&self) -> u64 {
        self.base.saturating_add(BELOW)
    }

    /// Adds words of a class below what is there.
    pub(crate) fn say(&mut self, class: &str, words: &str) -> Result<(), AllocError> {
        let base = self.base.saturating_add(LINE);
        self.base = push_lines(&mut self.text, class, words, self.page, base)?;
        Ok(())
    }

    /// Adds an entry to the legend, which has as many rows as it needs.
    pub(crate) fn add_key(&mut self, key: Key, words: &str) -> Result<(), AllocError> {
        let wide = (words.len() as u64).saturating_mul(LETTER);
        let wide = wide.saturating_add(KEY);
        if self.next.saturating_add(wide) > self.page {
            self.next = LEFT;
            self.base = self.base.saturating_add(LINE);
        }
        let left = self.next;
        self.next = left.saturating_add(wide).saturating_add(BETWEEN);
        self.push_key(key, left)?;
        let (after, base) = (left.saturating_add(KEY), self.base);
        writeln!(
            self.text,
            "<text class=\"s\" x=\"{after}\" y=\"{base}\">{words}</text>"
        )
    }

    fn push_key(&mut self, key: Key, left: u64) -> Result<(), AllocError> {
        let middle = self.base.saturating_sub(4);
        let (inside, after) = (left.saturating_add(4), left.saturating_add(18));
        let (place, top) = (left.saturating_add(10), middle.saturating_sub(6));
        match key {
            Key::Sign(shape) => writeln!(
                self.text,
                "<use href=\"#{shape}\" x=\"{place}\" y=\"{middle}\"/>"
            ),
            Key::Arrow(class) => writeln!(
                self.text,
                "<path class=\"{class}\" d=\"M{left} {middle}H{after}\"/>"
            ),
            Key::Box(class) => writeln!(
                self.text,
                "<rect class=\"{class}\" x=\"{inside}\" y=\"{top}\" width=\"12\" height=\"12\"/>"
            ),
            Key::Fill(fill) => writeln!(
                self.text,
                "<rect class=\"b t{fill}\" x=\"{inside}\" y=\"{top}\" width=\"12\" height=\"12\"/>"
            ),
        }
    }
}

/// Writes words of a class in as many lines as they need in a picture so wide, the first with its base at a height, and gives the base of
/// the last one.
pub(crate) fn push_lines(
    text: &mut String,
    class: &str,
    words: &str,
    page: u64,
    base: u64,
) -> Result<u64, AllocError> {
    let letter = if class == "h" { LARGE_LETTER } else { LETTER };
    let room = page.saturating_sub(LEFT) / letter;
    let mut base = base;
    let mut used = 0u64;
    write!(text, "<text class=\"{class}\" x=\"{LEFT}\" y=\"{base}\">")?;
    for word in words.split_whitespace() {
        let length = word.len() as u64;
        if used.saturating_add(length) > room && used > 0 {
            base = base.saturating_add(LINE);
            used = 0;
            write!(
                text,
                "</text>\n<text class=\"{class}\" x=\"{LEFT}\" y=\"{base}\">"
            )?;
        } else if used > 0 {
            text.push_str(" ")?;
        }
        text.push_str(word)?;
        used = used.saturating_add(length).saturating_add(1);
    }
    text.push_str("</text>\n")?;
    Ok(base)
}
