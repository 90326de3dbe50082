//! What the programs of a setup can need of a fleet's seats and rings.

ghost use Rattle.std.specs.Prelude.{◌≡◌, ◌≤◌, ◌*◌, length};
ghost use Rattle.eevdf_ops.specs.Numbers.{most_cpus, most_operations};
ghost use Rattle.eevdf_fleet.specs.ProgramRuns.{program_posts, program_room, quota_for, rings_for};

use eevdf_ops::{CpuId, Op, Setup};

/// The room for lines that each seat needs so that no operation of any program is refused, at least 1.
pub(crate) fn quota(setup: &Setup) -> usize
    ensures quota { result ≡ quota_for setup.now }
    ensures within { result ≤ most_cpus * most_operations }
{
    let mut quota = 1;
    for cpu in 0..setup.cpus() {
        quota = quota.max(room_of(setup.cpus(), setup.program(CpuId::numbered(cpu))));
    }
    quota
}

/// The room that each ring needs so that no request of any program is refused, at least 1.
pub(crate) fn rings(setup: &Setup) -> usize
    ensures rings { result ≡ rings_for setup.now }
    ensures within { result ≤ most_operations }
{
    let mut rings = 1;
    for cpu in 0..setup.cpus() {
        rings = rings.max(posts_of(setup.program(CpuId::numbered(cpu))));
    }
    rings
}

/// The room for lines that the operations of a program ask for together: a drain may have a line for each CPU, a post has
/// none.
fn room_of(cpus: usize, program: &[Op]) -> usize
    requires cpus { cpus ≤ most_cpus }
    requires few { length program.now ≤ most_operations }
    ensures room { result ≡ program_room cpus program.now }
    ensures within { result ≤ most_cpus * length program.now }
{
    let mut room = 0;
    for op in program {
        room += match op {
            Op::Post(_) => 0,
            Op::Drain => cpus,
            _ => 1,
        };
    }
    room
}

/// How many requests a program posts.
fn posts_of(program: &[Op]) -> usize
    ensures posts { result ≡ program_posts program.now }
    ensures within { result ≤ length program.now }
{
    let mut posts = 0;
    for op in program {
        if let Op::Post(_) = op {
            posts += 1;
        }
    }
    posts
}
