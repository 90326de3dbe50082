//! What the program says of itself.

/// What is printed where the words aren't known.
pub(crate) const USAGE: &[u8] =
    b"usage: eevdf solo|replay|run [--history] [--times] [solo: --strict] [FILE]\n";

/// What `--help` prints.
pub(crate) const HELP: &[u8] = b"\
eevdf runs a workload of tasks on the scheduler and prints each CPU's schedule.

usage: eevdf solo|replay|run [--history] [--times] [solo: --strict] [FILE]

  solo         does the deeds of the workload's script, one after the other
  replay       plays the programs of the CPUs step by step, in the workload's order
  run          runs the programs at the same time, each by a thread of its own
  --history    prints the deeds of all CPUs too, in the order in which they were done
  --times      prints in front of each line of a CPU its time in nanoseconds, by the clock that its ticks move
  --strict     of solo: has no report where a deed of the script is refused, but a fault
  FILE         the workload; without it, or where it is -, standard input is read
  --help, -h   prints this
  --version    prints the version

example: eevdf solo examples/two-tasks.toml

The format of a workload and of what is printed: docs/formats.md. The status is 0 where all went well, 1 where the workload is
refused, 2 where the words aren't known, and 3 where memory, a thread, reading or writing failed.
";
