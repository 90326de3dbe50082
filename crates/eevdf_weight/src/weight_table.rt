ghost use Rattle.std.specs.Prelude.{◌≡◌, ◌≤◌, ◌<◌};
ghost use Rattle.eevdf_weight.specs.Weight.{place_of, weight_of};

use crate::nice::Nice;

/// The weights of the nice levels from -20 on, five to a line.
const WEIGHTS: [u64; 40] = [
    88761, 71755, 56483, 46273, 36291, //
    29154, 23254, 18705, 14949, 11916, //
    9548, 7620, 6100, 4904, 3906, //
    3121, 2501, 1991, 1586, 1277, //
    1024, 820, 655, 526, 423, //
    335, 272, 215, 172, 137, //
    110, 87, 70, 56, 45, //
    36, 29, 23, 18, 15,
];

/// The weight of a nice level by the table of the Linux kernel, from 88761 down to 15; level 0 weighs 1024.
pub fn weight(nice: Nice) -> u64
    ensures value { result ≡ weight_of nice }
    ensures least { 15 ≤ result }
    ensures greatest { result ≤ 88761 }
{
    WEIGHTS[place(nice)]
}

/// The place of a level in the table.
pub(crate) fn place(nice: Nice) -> usize
    ensures place { result ≡ place_of nice }
    ensures within { result < 40 }
{
    (nice.get() + 20) as usize
}
