//! The numbers of a fair scheduler: what a nice level weighs, how a time that was run is charged to a
//! virtual runtime, how far a lag may go, and where a task with a lag is placed.
//!
//! Real times are in nanoseconds. Virtual times are signed whole numbers: a task of weight 1024, that of
//! nice level 0, ages one unit of virtual time a nanosecond, a heavier task more slowly. No call takes memory.
#![tactic(auto)]

mod charging;
mod level_charging;
mod nice;
mod ns;
mod placement;
mod product;
mod quotient;
mod slice;
mod weight_table;

pub use charging::{charge, lag_limit};
pub use level_charging::{level_charge, level_lag_limit};
pub use nice::{BadNice, Nice};
pub use ns::{BadNs, Ns};
pub use placement::{BOUND, is_in_range, placed};
pub use product::wide_product;
pub use quotient::{floor_quotient, narrow_floor_quotient};
pub use slice::{BadSlice, Slice};
pub use weight_table::weight;
