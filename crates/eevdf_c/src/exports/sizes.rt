//! How many bytes the caller gives to a queue, to a hand, to bounds and to shares.

ghost use Rattle.std.specs.Prelude.{◌≡◌};
ghost use Rattle.eevdf_c.specs.Sizes.{bounds_size, hand_size, queue_size, shares_size};

use crate::fair_bounds::FairBounds;
use crate::fair_shares::FairShares;
use crate::hand::Hand;
use crate::opened::Opened;
use std::mem::size_of;

/// The bytes of a queue, as `EEVDF_QUEUE_SIZE` of the header has them.
#[unsafe(no_mangle)]
pub extern "C" fn eevdf_queue_size() -> i64
    ensures { result ≡ queue_size }
{
    size_of::<Opened>() as i64
}

/// The bytes of a hand, as `EEVDF_HAND_SIZE` of the header has them.
#[unsafe(no_mangle)]
pub extern "C" fn eevdf_hand_size() -> i64
    ensures { result ≡ hand_size }
{
    size_of::<Hand>() as i64
}

/// The bytes of bounds, as `EEVDF_BOUNDS_SIZE` of the header has them.
#[unsafe(no_mangle)]
pub extern "C" fn eevdf_bounds_size() -> i64
    ensures { result ≡ bounds_size }
{
    size_of::<FairBounds>() as i64
}

/// The bytes of shares, as `EEVDF_SHARES_SIZE` of the header has them.
#[unsafe(no_mangle)]
pub extern "C" fn eevdf_shares_size() -> i64
    ensures { result ≡ shares_size }
{
    size_of::<FairShares>() as i64
}
