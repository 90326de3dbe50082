//! Charges of tasks by their nice levels. A level's weight is one of forty, so the quotient by it is a product with a number that
//! is known beforehand: a division of 64 bits costs several times as much. The method is that of Granlund and Montgomery,
//! "Division by Invariant Integers using Multiplication" (1994); Linux keeps such a table too, of 32 bits.

ghost use Rattle.std.specs.Prelude.{◌≡◌, ◌*◌, ◌/◌, ◌≤◌, ◌^◌, pos};
ghost use Rattle.eevdf_weight.specs.{Charge.charge_of, Charge.lag_limit_of, Inverse.IsInverse, Weight.weight_of};

use crate::nice::Nice;
use crate::slice::Slice;
use crate::weight_table::place;

/// 2^64 over the weight of each nice level from -20 on, rounded up.
const INVERSES: [u64; 40] = [
    207824878873713,
    257079563427073,
    326589311362881,
    398650272809405, //
    508300792860753,
    632734584403841,
    793271870375401,
    986193214312193, //
    1233978465028401,
    1548065128710101,
    1932000845591701,
    2420832555604929, //
    3024056405526157,
    3761570977510105,
    4722668733668601,
    5910523573761472, //
    7375747330551601,
    9265064828583402,
    11630986175100601,
    14445375155606541, //
    18014398509481984,
    22496029358182381,
    28162968051464965,
    35069855653440213, //
    43609324051322818,
    55064907682715080,
    67818912035696881,
    85798809645160706, //
    107248512056450882,
    134647766961383589,
    167697673397359561,
    212031541077121283, //
    263524915338707881,
    329406144173384851,
    409927646082434481,
    512409557603043101, //
    636094623231363849,
    802032351030850071,
    1024819115206086201,
    1229782938247303442,
];

/// The virtual time that a task of this nice level ages in `ns` nanoseconds: what `charge` gives for its weight.
#[tactic(auto, using(crate::proofs::Inverses::charged))]
pub fn level_charge(ns: u64, nice: Nice) -> i64
    requires short { ns ≤ 1000000000 }
    ensures { result ≡ pos (charge_of ns (weight_of nice)) }
{
    upper_half(ns * 1024, inverse(nice))
}

/// How far from 0 the lag of a task of this slice and nice level may be kept: what `lag_limit` gives for its weight.
pub fn level_lag_limit(slice: Slice, nice: Nice) -> i64
    ensures { result ≡ pos (lag_limit_of slice (weight_of nice)) }
{
    level_charge(2 * slice.get(), nice)
}

/// A product over 2^64, rounded down.
fn upper_half(number: u64, inverse: u64) -> i64
    requires { number ≤ 2 ^ 40 }
    ensures { result ≡ pos (number * inverse / 2 ^ 64) }
{
    ((u128::from(number) * u128::from(inverse)) >> 64) as i64
}

/// The number by which to multiply in the place of a division by a level's weight.
fn inverse(nice: Nice) -> u64
    ensures { IsInverse (weight_of nice) result }
{
    INVERSES[place(nice)]
}
