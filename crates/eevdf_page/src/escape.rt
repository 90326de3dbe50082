//! Texts from elsewhere within a page.

ghost use Rattle.std.specs.Prelude.{◌≡◌, IfOk};
ghost use Rattle.eevdf_page.specs.Scripts as spec;

use std::alloc::{AllocError, Global};

/// A text as HTML has it, between tags or in quotes: what has a meaning there stands as its number.
pub(crate) fn html_of(alloc: Global, raw: &[u8]) -> Result<Vec<u8>, AllocError>
    ensures { IfOk result (λ text. text.items ≡ spec.of_html raw.now) }
{
    let mut text = Vec::with_capacity(alloc, raw.len())?;
    for byte in raw {
        match *byte {
            b'"' => text.extend_from_slice(b"&#34;")?,
            b'&' => text.extend_from_slice(b"&#38;")?,
            b'\'' => text.extend_from_slice(b"&#39;")?,
            b'<' => text.extend_from_slice(b"&#60;")?,
            b'>' => text.extend_from_slice(b"&#62;")?,
            _ => text.push(*byte)?,
        }
    }
    Ok(text)
}

/// JSON as a script may have it: with no `<`, so that neither a tag nor a comment begins in it. One can only stand in a string, which may
/// have it as its number.
pub(crate) fn script_json(alloc: Global, json: &[u8]) -> Result<Vec<u8>, AllocError>
    ensures { IfOk result (λ text. text.items ≡ spec.of_script json.now) }
{
    let mut text = Vec::with_capacity(alloc, json.len())?;
    for byte in json {
        if *byte == b'<' {
            text.extend_from_slice(b"\\u003c")?;
        } else {
            text.push(*byte)?;
        }
    }
    Ok(text)
}
