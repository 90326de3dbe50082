//! Arrays that are read without a tree, an element at a time.

ghost use Rattle.std.specs.Prelude.{◌≡◌, ◌<◌, ◌≤◌, ℕ, suc, Some, length, IfErr, IfOk, IfSome};
ghost use Rattle.eevdf_workload.specs.Fronts.{AreRead};
ghost use Rattle.eevdf_workload.specs.declared.load_fault.LoadFault.TheVariants.{Memory};
ghost use Rattle.toml.specs.Data.{Data, Items, array};
ghost use Rattle.toml.specs.Parse as parse;

use crate::load_fault::LoadFault;
use std::alloc::Global;
use toml_parser::text::{first, skip, skip_blank};

/// What the elements of an array are read as.
pub(crate) trait Element {
    type Value: Drop;

    /// How many arrays may stand in one another where an element stands.
    ghost depth: { Self → ℕ };

    /// What it means that an element is read as a value.
    ghost reads: { Self → Data → Self.Value → Type 0 };

    /// The element at the front of a text, and what stands behind it.
    fn read<'a>(
        &self,
        alloc: Global,
        text: &'a str,
    ) -> Result<Option<(Self::Value, &'a str)>, LoadFault>
        ensures value { IfOk result (λ found. IfSome found (λ p. (d : Data)
            × (parse.val (depth self.now) text.now ≡ Some (d, p.1.now)) × reads self.now d p.0)) }
        ensures shorter { IfOk result (λ found. IfSome found (λ p. length p.1.now < length text.now)) }
        ensures memory { IfErr result (λ e. e ≡ Memory) };
}

/// The array at the front of a text, and what stands behind it.
pub(crate) fn array_at<'a, E: Element>(
    alloc: Global,
    element: &E,
    text: &'a str,
) -> Result<Option<(Vec<E::Value>, &'a str)>, LoadFault>
    ensures value { IfOk result (λ found. IfSome found (λ p. (elements : Items)
        × (parse.val (suc (E.depth element.now)) text.now ≡ Some (array elements, p.1.now))
        × AreRead (E.reads element.now) elements p.0.items)) }
    ensures shorter { IfOk result (λ found. IfSome found (λ p. length p.1.now < length text.now)) }
    ensures memory { IfErr result (λ e. e ≡ Memory) }
{
    if first(text) != b'[' {
        return Ok(None);
    }
    let mut values = Vec::new(alloc);
    let mut left = skip(text, 1);
    'elements: loop {
        let start = skip_blank(left, true);
        if first(start) == b']' {
            // what is spare would stay until the workload goes
            values.shrink_to_fit();
            return Ok(Some((values, skip(start, 1))));
        }
        let Some((value, after)) = element.read(alloc, start)? else {
            return Ok(None);
        };
        values.push(value)?;
        let Some(next) = behind_element(after) else {
            return Ok(None);
        };
        left = next;
    }
}

/// What stands behind an element of an array: after a comma, or at the closing bracket.
fn behind_element(text: &str) -> Option<&str>
    ensures value { IfSome result (λ next. parse.after_element 93 text.now ≡ Some next.now) }
    ensures within { IfSome result (λ next. length next.now ≤ length text.now) }
{
    let rest = skip_blank(text, true);
    match first(rest) {
        b',' => Some(skip(rest, 1)),
        b']' => Some(rest),
        _ => None,
    }
}
