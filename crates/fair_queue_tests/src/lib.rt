//! Tests of eevdf_fair_queue, by its calls: the bound that is read beside how late requests really are; and of eevdf_fair_seat.
#![tactic(auto)]

#[cfg(test)]
mod bounds;
#[cfg(test)]
mod drawn_loops;
#[cfg(test)]
mod kits;
#[cfg(test)]
mod near_bounds;
#[cfg(test)]
mod seat_bounds;
#[cfg(test)]
mod shares;
