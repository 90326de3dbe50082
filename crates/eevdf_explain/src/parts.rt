//! The parts of a document, one after the other: its lines, what commas part in an array or an inline table, and what dots part in a key.

use crate::tokens::{Kind, Place, Token, Tokens};

/// A line of a document: a header, or a key with its value, which may go on over several lines of the text.
#[derive(Drop)]
pub(crate) struct Lines<'a> {
    tokens: Tokens<'a>,
}

impl<'a> Lines<'a> {
    /// The lines of a text, without a byte order mark.
    pub(crate) fn of(text: &'a [u8]) -> Lines<'a> {
        let start = if text.starts_with(b"\xEF\xBB\xBF") {
            3
        } else {
            0
        };
        let end = text.len();
        Lines {
            tokens: Tokens::within(text, Place { start, end }),
        }
    }

    /// There are at most so many lines left.
    pub(crate) fn most(&self) -> usize {
        self.tokens.most()
    }

    /// The place of the next line.
    pub(crate) fn next(&mut self) -> Option<Place> {
        let mut depth = 0usize;
        let mut line = None;
        for _token in 0..self.tokens.most() {
            let Some(token) = self.tokens.next() else {
                return line;
            };
            match token.kind {
                Kind::Newline if depth == 0 && line.is_some() => return line,
                Kind::Newline => {}
                _ => {
                    depth = depth_after(depth, token.kind);
                    line = Some(with_token(line, token));
                }
            }
        }
        line
    }
}

/// The elements of an array, or the pairs of an inline table.
#[derive(Drop)]
pub(crate) struct Elements<'a> {
    tokens: Tokens<'a>,
    is_over: bool,
}

impl<'a> Elements<'a> {
    /// The elements of the array or the inline table at a place. Of anything else there are none.
    pub(crate) fn of(text: &'a [u8], place: Place) -> Elements<'a> {
        let mut tokens = Tokens::within(text, place);
        let is_over = !matches!(
            tokens.next(),
            Some(Token {
                kind: Kind::Open,
                ..
            })
        );
        Elements { tokens, is_over }
    }

    /// There are at most so many elements left.
    pub(crate) fn most(&self) -> usize {
        self.tokens.most()
    }

    /// The place of the next element.
    pub(crate) fn next(&mut self) -> Option<Place> {
        if self.is_over {
            return None;
        }
        let mut depth = 0usize;
        let mut element = None;
        for _token in 0..self.tokens.most() {
            let Some(token) = self.tokens.next() else {
                break;
            };
            match token.kind {
                Kind::Comma if depth == 0 => return element,
                Kind::Close if depth == 0 => break,
                Kind::Newline => {}
                _ => {
                    depth = depth_after(depth, token.kind);
                    element = Some(with_token(element, token));
                }
            }
        }
        self.is_over = true;
        element
    }
}

/// The names of the key or the header that a line begins with, which dots part.
#[derive(Drop)]
pub(crate) struct Names<'a> {
    tokens: Tokens<'a>,
    is_over: bool,
}

impl<'a> Names<'a> {
    /// The names at the front of a line.
    pub(crate) fn of(text: &'a [u8], line: Place) -> Names<'a> {
        Names {
            tokens: Tokens::within(text, line),
            is_over: false,
        }
    }

    /// The place of the next name, with its quotes.
    pub(crate) fn next(&mut self) -> Option<Place> {
        for _token in 0..self.tokens.most() {
            if self.is_over {
                return None;
            }
            let token = self.tokens.next()?;
            match token.kind {
                Kind::Open | Kind::Dot => {}
                Kind::Word => return Some(token.place),
                _ => self.is_over = true,
            }
        }
        None
    }
}

/// How deep the text stands in brackets after a token.
fn depth_after(depth: usize, kind: Kind) -> usize {
    match kind {
        Kind::Open => depth.saturating_add(1),
        Kind::Close => depth.saturating_sub(1),
        _ => depth,
    }
}

/// The place so far, with a token at its end.
fn with_token(place: Option<Place>, token: Token) -> Place {
    match place {
        Some(place) => place.up_to(token.place),
        None => token.place,
    }
}
