//! The seed that the program's words give.

ghost use Rattle.std.specs.Prelude.{◌≡◌, true, false, Err, Ok, IfOk, map, option_map, codes};
ghost use Rattle.clap.specs.Words.{app_of, first_of, found_of, rows_of, rule_of};
ghost use Rattle.clap.specs.declared.builder.command.Command.TheViews.{out-Command as fields_of};
ghost use Rattle.eevdf_orders.specs.SeedWords as spec;

use clap::{Arg, ArgAction, ArgMatches};
use eevdf_bench::WordFault;
use std::alloc::{AllocError, Global};
use std::convert::AsStr;

/// Reads the program's words, of which the first is the program's name: nothing, or `--seed` with a whole number
/// below 2^64. `Memory` may come in place of any other answer.
pub fn seed_of<S: AsStr>(alloc: Global, words: &[S]) -> Result<Option<u64>, WordFault>
    ensures ok { IfOk result (spec.IsSeedOf (map S.text words.now)) }
    ensures refused { result ≡ Err WordFault.Words → spec.AreRefused (map S.text words.now) }
{
    let matches = matches_of(alloc, words)?;
    number_of(matches.get_str("seed"))
}

/// The number that the flag's value is.
fn number_of(value: Option<&str>) -> Result<Option<u64>, WordFault>
    ensures ok { IfOk result (spec.ReadsAs (option_map (λ s. s.now) value.entry)) }
    ensures refused { result ≡ Err WordFault.Words →
        spec.IsNoNumber (option_map (λ s. s.now) value.entry) }
{
    let Some(text) = value else {
        return Ok(None);
    };
    match text.parse::<u64>() {
        Ok(number) => Ok(Some(number)),
        Err(_) => Err(WordFault::Words),
    }
}

fn matches_of<'a, S: AsStr>(alloc: Global, words: &'a [S]) -> Result<ArgMatches<'a>, WordFault>
    ensures ok { IfOk result (λ m. (spec.is_taken (map S.text words.entry.now) ≡ true)
        × (first_of (codes "seed") (rows_of (found_of m))
        ≡ spec.value_in (map S.text words.entry.now))) }
    ensures refused { result ≡ Err WordFault.Words
        → spec.is_taken (map S.text words.entry.now) ≡ false }
{
    let matches = program(alloc)?.try_get_matches_from(words)?;
    Ok(matches)
}

// The program as `clap` knows it: its one flag, and none for help.
fn program<'a>(alloc: Global) -> Result<clap::Command<'a>, AllocError>
    ensures { IfOk result (λ c. app_of c ≡ spec.program) }
{
    clap::Command::new(alloc, "eevdf_orders")
        .disable_help_flag(true)
        .disable_help_subcommand(true)
        .arg(seed_flag(alloc))
}

fn seed_flag<'a>(alloc: Global) -> Arg<'a>
    ensures rule { rule_of result ≡ spec.seed_rule }
    ensures local { result.global ≡ false }
{
    Arg::new(alloc, "seed").long("seed").action(ArgAction::Set)
}
