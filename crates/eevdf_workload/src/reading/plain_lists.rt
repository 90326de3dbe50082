//! The lists that are read without a tree: an order, programs and a script.

ghost use Rattle.std.specs.Prelude.{◌≡◌, ◌<◌, ℕ, Ok, Some, length, IfErr, IfOk, IfSome};
ghost use Rattle.eevdf_workload.specs.Fronts.{programs_in};
ghost use Rattle.eevdf_workload.specs.declared.load_fault.LoadFault.TheVariants.{Memory};
ghost use Rattle.eevdf_workload.specs.Meaning.{order_of, programs_of, script_of};
ghost use Rattle.toml.specs.Data.{Data};
ghost use Rattle.toml.specs.Parse as parse;

use crate::load_fault::LoadFault;
use crate::reading::deed_text::deed;
use crate::reading::operation_text::operation;
use crate::reading::plain_arrays::{Element, array_at};
use crate::reading::plain_values::{number_at, string_at};
use crate::version::Limits;
use eevdf_ops::{Deed, Op};
use std::alloc::Global;

/// The order at the front of a text, and what stands behind it.
pub(crate) fn order_at(alloc: Global, text: &str) -> Result<Option<(Vec<usize>, &str)>, LoadFault>
    ensures value { IfOk result (λ found. IfSome found (λ p. (d : Data)
        × (parse.val 80 text.now ≡ Some (d, p.1.now)) × (order_of d ≡ Ok p.0.items))) }
    ensures shorter { IfOk result (λ found. IfSome found (λ p. length p.1.now < length text.now)) }
    ensures memory { IfErr result (λ e. e ≡ Memory) }
{
    array_at(alloc, &Callers, text)
}

/// The programs at the front of a text, and what stands behind them.
pub(crate) fn programs_at(
    alloc: Global,
    limits: Limits,
    text: &str,
) -> Result<Option<(Vec<Vec<Op>>, &str)>, LoadFault>
    ensures value { IfOk result (λ found. IfSome found (λ p. (d : Data)
        × (parse.val 80 text.now ≡ Some (d, p.1.now))
        × (programs_of limits d ≡ Ok (programs_in p.0)))) }
    ensures shorter { IfOk result (λ found. IfSome found (λ p. length p.1.now < length text.now)) }
    ensures memory { IfErr result (λ e. e ≡ Memory) }
{
    array_at(alloc, &Programs { limits }, text)
}

/// The script at the front of a text, if it is within the limits, and what stands behind it.
pub(crate) fn script_at(
    alloc: Global,
    limits: Limits,
    text: &str,
) -> Result<Option<(Vec<Deed>, &str)>, LoadFault>
    ensures value { IfOk result (λ found. IfSome found (λ p. (d : Data)
        × (parse.val 80 text.now ≡ Some (d, p.1.now)) × (script_of limits d ≡ Ok p.0.items))) }
    ensures shorter { IfOk result (λ found. IfSome found (λ p. length p.1.now < length text.now)) }
    ensures memory { IfErr result (λ e. e ≡ Memory) }
{
    match array_at(alloc, &Deeds { limits }, text)? {
        Some((script, after)) if script.len() <= limits.deeds => Ok(Some((script, after))),
        _ => Ok(None),
    }
}

/// The callers of an order.
#[derive(Drop)]
struct Callers;

impl Element for Callers {
    type Value = usize;

    ghost use Rattle.std.specs.Prelude.{◌≡◌, ℕ, Ok};
    ghost use Rattle.eevdf_workload.specs.Meaning.{caller_at};

    ghost depth = { λ _. 79 };

    ghost reads = { λ _ d caller. (place : ℕ) → caller_at place d ≡ Ok caller };

    fn read<'a>(
        &self,
        alloc: Global,
        text: &'a str,
    ) -> Result<Option<(usize, &'a str)>, LoadFault> {
        let Some((caller, after)) = number_at(alloc, text)? else {
            return Ok(None);
        };
        Ok(Some((caller as usize, after)))
    }
}

/// The programs of all CPUs.
#[derive(Drop)]
struct Programs {
    limits: Limits,
}

impl Element for Programs {
    type Value = Vec<Op>;

    ghost use Rattle.std.specs.Prelude.{◌≡◌, ℕ, Ok};
    ghost use Rattle.eevdf_workload.specs.Meaning.{program_at};

    ghost depth = { λ _. 79 };

    ghost reads = { λ it d program. (cpu : ℕ) → program_at it.limits cpu d ≡ Ok program.items };

    fn read<'a>(
        &self,
        alloc: Global,
        text: &'a str,
    ) -> Result<Option<(Vec<Op>, &'a str)>, LoadFault> {
        let limits = self.limits;
        array_at(alloc, &Operations { limits }, text)
    }
}

/// The operations of a program.
#[derive(Drop)]
struct Operations {
    limits: Limits,
}

impl Element for Operations {
    type Value = Op;

    ghost use Rattle.std.specs.Prelude.{◌≡◌, ℕ, Ok};
    ghost use Rattle.eevdf_workload.specs.Meaning.{operation_at};

    ghost depth = { λ _. 78 };

    ghost reads = { λ it d op. (cpu place : ℕ) → operation_at it.limits cpu place d ≡ Ok op };

    fn read<'a>(&self, alloc: Global, text: &'a str) -> Result<Option<(Op, &'a str)>, LoadFault> {
        let Some((string, after)) = string_at(alloc, text)? else {
            return Ok(None);
        };
        let Some(op) = operation(self.limits, string.as_str()) else {
            return Ok(None);
        };
        Ok(Some((op, after)))
    }
}

/// The deeds of a script.
#[derive(Drop)]
struct Deeds {
    limits: Limits,
}

impl Element for Deeds {
    type Value = Deed;

    ghost use Rattle.std.specs.Prelude.{◌≡◌, ℕ, Ok};
    ghost use Rattle.eevdf_workload.specs.Meaning.{deed_at};

    ghost depth = { λ _. 79 };

    ghost reads = { λ it d deed. (place : ℕ) → deed_at it.limits place d ≡ Ok deed };

    fn read<'a>(&self, alloc: Global, text: &'a str) -> Result<Option<(Deed, &'a str)>, LoadFault> {
        let Some((string, after)) = string_at(alloc, text)? else {
            return Ok(None);
        };
        let Some(deed) = deed(self.limits, string.as_str()) else {
            return Ok(None);
        };
        Ok(Some((deed, after)))
    }
}
