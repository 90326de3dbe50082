//! The text of a workload with its order.

ghost use Rattle.std.specs.Prelude.{◌≡◌, ◌≤◌, ◌++◌, length, OnOk, IfOk};
ghost use Rattle.eevdf_orders.specs.OrderText as texts;

use itoa::Buffer;
use std::alloc::{AllocError, Global};

/// The workload with an order as its first key. A byte order mark stays in front.
pub fn ordered(alloc: Global, order: &[usize], workload: &[u8]) -> Result<Vec<u8>, AllocError>
    ensures { IfOk result (λ text. text.items ≡ texts.ordered_text order.now workload.now) }
{
    let start = mark_length(workload);
    let mut text = Vec::new(alloc);
    text.extend_from_slice(&workload[..start])?;
    push_order(&mut text, order)?;
    text.extend_from_slice(&workload[start..])?;
    Ok(text)
}

/// The length of the byte order mark with which a text begins, or 0.
fn mark_length(text: &[u8]) -> usize
    ensures mark { result ≡ texts.mark_length text.now }
    ensures within { result ≤ length text.now }
{
    if text.len() >= 3 && text[0] == 0xEF && text[1] == 0xBB && text[2] == 0xBF {
        3
    } else {
        0
    }
}

/// Writes an order as a TOML array, 32 places on a line.
fn push_order(text: &mut Vec<u8>, order: &[usize]) -> Result<(), AllocError>
    ensures { OnOk result (text.new.items ≡ text.old.items ++ texts.order_text order.now) }
{
    text.extend_from_slice(b"order = [")?;
    push_places(text, order)?;
    text.extend_from_slice(b"\n]\n")
}

fn push_places(text: &mut Vec<u8>, order: &[usize]) -> Result<(), AllocError>
    ensures { OnOk result (text.new.items ≡ text.old.items ++ texts.places_text 0 order.now) }
{
    for at in 0..order.len() {
        push_place(text, at, order[at])?;
    }
    Ok(())
}

fn push_place(text: &mut Vec<u8>, at: usize, caller: usize) -> Result<(), AllocError>
    ensures { OnOk result (text.new.items ≡ text.old.items ++ texts.place_text at caller) }
{
    push_gap(text, at)?;
    text.extend_from_slice(Buffer::new().format(caller as u64).as_bytes())?;
    text.extend_from_slice(b",")
}

/// Writes what stands before the number at a place.
fn push_gap(text: &mut Vec<u8>, at: usize) -> Result<(), AllocError>
    ensures { OnOk result (text.new.items ≡ text.old.items ++ texts.gap at) }
{
    text.extend_from_slice(if at % 32 == 0 { b"\n" } else { b" " })
}
