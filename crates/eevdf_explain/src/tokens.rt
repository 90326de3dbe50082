//! The pieces of a text that is a TOML document: enough of its form to find where a value stands.

ghost use Rattle.std.specs.Prelude.{IfSome};
ghost use Rattle.eevdf_explain.specs.Places.{LiesIn};

/// A range of the bytes of a text: from the first byte to before the end.
#[derive(Clone, Copy, PartialEq, Eq, Debug)]
pub struct Place {
    pub start: usize,
    pub end: usize,
}

impl Place {
    /// The place, if it lies in a text.
    pub(crate) fn within(self, text: &[u8]) -> Option<Place>
        ensures { IfSome result (LiesIn text.now) }
    {
        if self.start <= self.end && self.end <= text.len() {
            Some(self)
        } else {
            None
        }
    }

    /// The range from the start of this place to the end of another.
    pub(crate) fn up_to(self, other: Place) -> Place {
        Place {
            start: self.start,
            end: other.end,
        }
    }
}

#[derive(Clone, Copy)]
pub(crate) enum Kind {
    Newline,
    /// `[` or `{`
    Open,
    /// `]` or `}`
    Close,
    Comma,
    Equals,
    /// It parts the names of a key; one in a number or a date parts that too.
    Dot,
    /// A string with its quotes, or whatever stands between two of the others.
    Word,
}

#[derive(Clone, Copy)]
pub(crate) struct Token {
    pub(crate) kind: Kind,
    pub(crate) place: Place,
}

/// The tokens of a text that are still to be seen. White space and comments are passed over.
#[derive(Drop)]
pub(crate) struct Tokens<'a> {
    text: &'a [u8],
    at: usize,
}

impl<'a> Tokens<'a> {
    /// The tokens of a text from a place's start to its end, or to that of the text.
    pub(crate) fn within(text: &'a [u8], place: Place) -> Tokens<'a> {
        Tokens {
            text: text.get(..place.end).unwrap_or(text),
            at: place.start,
        }
    }

    /// There are at most so many tokens left.
    pub(crate) fn most(&self) -> usize {
        self.text.len().saturating_sub(self.at)
    }

    pub(crate) fn next(&mut self) -> Option<Token> {
        let start = blank_end(self.text, self.at);
        let byte = *self.text.get(start)?;
        let (kind, end) = match byte {
            b'\n' => (Kind::Newline, start + 1),
            b'[' | b'{' => (Kind::Open, start + 1),
            b']' | b'}' => (Kind::Close, start + 1),
            b',' => (Kind::Comma, start + 1),
            b'=' => (Kind::Equals, start + 1),
            b'.' => (Kind::Dot, start + 1),
            b'"' | b'\'' => (Kind::Word, quoted_end(self.text, start, byte)),
            _ => (Kind::Word, bare_end(self.text, start)),
        };
        self.at = end;
        Some(Token {
            kind,
            place: Place { start, end },
        })
    }
}

/// Where the white space and the comment end that begin at a place.
fn blank_end(text: &[u8], from: usize) -> usize {
    let mut in_comment = false;
    for at in from..text.len() {
        match text[at] {
            b'\n' => return at,
            b'#' => in_comment = true,
            b' ' | b'\t' | b'\r' => {}
            _ if in_comment => {}
            _ => return at,
        }
    }
    text.len()
}

/// Where the word without quotes ends that begins at a place.
fn bare_end(text: &[u8], from: usize) -> usize {
    for at in from..text.len() {
        match text[at] {
            b' ' | b'\t' | b'\r' | b'\n' | b'#' | b',' | b'=' | b'.' | b'[' | b']' | b'{' | b'}' =>
                {
                    return at;
                }
            _ => {}
        }
    }
    text.len()
}

/// Where the string ends that begins with this quote at a place.
fn quoted_end(text: &[u8], start: usize, quote: u8) -> usize {
    let second = start.saturating_add(1);
    let third = start.saturating_add(2);
    if text.get(second) == Some(&quote) && text.get(third) == Some(&quote) {
        long_end(text, start.saturating_add(3), quote)
    } else {
        short_end(text, second, quote)
    }
}

/// The same after the quote of a string on one line.
fn short_end(text: &[u8], from: usize, quote: u8) -> usize {
    let mut is_escaped = false;
    for at in from..text.len() {
        let byte = text[at];
        if byte == quote && !is_escaped {
            return at + 1;
        }
        is_escaped = byte == b'\\' && quote == b'"' && !is_escaped;
    }
    text.len()
}

/// The same after the three quotes of a string on several lines, which may end in two quotes of its own.
fn long_end(text: &[u8], from: usize, quote: u8) -> usize {
    let mut is_escaped = false;
    let mut quotes = 0usize;
    for at in from..text.len() {
        let byte = text[at];
        if byte == quote && !is_escaped {
            quotes = quotes.saturating_add(1);
        } else if quotes >= 3 {
            return at;
        } else {
            quotes = 0;
            is_escaped = byte == b'\\' && quote == b'"' && !is_escaped;
        }
    }
    text.len()
}
