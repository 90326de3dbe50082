//! How the name of a file is told.

use std::alloc::{AllocError, Global};

/// The name of a file, with what a terminal wouldn't print written as an escape.
pub fn told_name(alloc: Global, name: &str) -> Result<String, AllocError> {
    let mut told = String::new(alloc);
    for character in name.chars() {
        if character == '"' || character == '\'' || character == '\\' {
            told.push(character)?;
        } else {
            for part in character.escape_debug() {
                told.push(part)?;
            }
        }
    }
    Ok(told)
}
