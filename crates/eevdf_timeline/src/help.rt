//! What the program says of itself.

/// What is printed where the words aren't known.
pub(crate) const USAGE: &[u8] =
    b"usage: eevdf_timeline [--replay [--race]|--run] [--html|--perfetto|--table|--stats [--json]] [--rows cpus|tasks] \
[--width PX] [--from NS] [--to NS] [--cpu N,..] [--task N,..] [FILE]\n";

/// What `--help` prints.
pub(crate) const HELP: &[u8] = b"\
eevdf_timeline draws what the scheduler answers to a workload: a picture (SVG), a page (HTML), a trace or a table.

usage: eevdf_timeline [--replay [--race]|--run] [--html|--perfetto|--table|--stats [--json]] [--rows cpus|tasks] \
[--width PX] [--from NS] [--to NS] [--cpu N,..] [--task N,..] [FILE]

  --replay     draws the workload's order, in place of its script
  --race       with --replay, draws the order's steps, and below them the one thread's history that they come to
  --run        draws the programs, each run by a thread of its own
  --html       writes a page: the picture, which tells of what the pointer is at, with the table and the figures
  --perfetto   writes a trace, in the format that Perfetto and chrome://tracing read
  --table      writes a table with a line for each stretch that a task ran
  --stats      writes a table of figures
  --json       with --stats, writes the figures as JSON
  --rows ROWS  with tasks, a picture has a row for each task; with cpus, a lane for each CPU, as without it
  --width PX   how wide a picture is, in pixels, from 320 to 10000; without it 1000
  --from NS    leaves out what is before this time, in nanoseconds; with --race, what is before this place of the order
  --to NS      leaves out what is after this time, or isn't before this place. What is partly in a time is there, and told
               whole; --stats counts the part
  --cpu N,..   these CPUs alone
  --task N,..  these tasks alone; others are light grey in a picture
  FILE         the workload; without it, or where it is -, standard input is read
  --help, -h   prints this
  --version    prints the version

example: eevdf_timeline examples/pull.toml >schedule.svg

What is drawn: docs/pictures.md; the format of a workload: docs/formats.md. The status is 0 where all went well, 1 where the workload is
refused, 2 where the words aren't known, and 3 where memory, a thread, reading or writing failed.
";
