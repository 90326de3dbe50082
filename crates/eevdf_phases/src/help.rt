//! What the program says of itself.

/// What is printed where the words aren't known.
pub(crate) const USAGE: &[u8] = b"usage: eevdf_phases [--from trace] [--run|--stats] [FILE]\n";

/// What `--help` prints.
pub(crate) const HELP: &[u8] = b"\
eevdf_phases reads what tasks do, phase by phase, and prints the script that the scheduler does with them, for `eevdf solo`.

usage: eevdf_phases [--from trace] [--run|--stats] [FILE]

  --from trace reads a trace of a real machine, as `perf sched script` or `trace-cmd report` print it, instead of phases
  --run        prints each deed with its answer and its moment instead
  --stats      prints for how long each task ran and waited instead
  FILE         the workload of phases, or the trace; without it, or where it is -, standard input is read
  --help, -h   prints this
  --version    prints the version

example: eevdf_phases examples/phases/web-server.toml | eevdf solo

The format of a workload of phases: docs/phases.md; of the script: docs/formats.md. The status is 0 where all went well, 1 where the
workload is refused, or the machine could not be driven to the end, 2 where the words aren't known, and 3 where memory, reading or writing
failed.
";
