//! What the program says of itself.

/// What is printed where the words aren't known.
pub(crate) const USAGE: &[u8] = b"usage: eevdf_orders [--seed N] [FILE]\n";

/// What `--help` prints.
pub(crate) const HELP: &[u8] = b"\
eevdf_orders prints a workload with an order of the callers' steps in front, which `eevdf replay` plays to its end.

usage: eevdf_orders [--seed N] [FILE]

  --seed N     draws the order from a seed, a whole number below 2^64; without it the callers take turns
  FILE         the workload; without it, or where it is -, standard input is read
  --help, -h   prints this
  --version    prints the version

example: eevdf_orders --seed 7 examples/programs-apart.toml | eevdf replay

The format of a workload and of its order: docs/formats.md. The status is 0 where all went well, 1 where the workload is refused or has an
order already, 2 where the words aren't known, and 3 where memory, reading or writing failed.
";
