//! Tests of eevdf_fairness and eevdf_balance, by their calls: turns of one queue, and how near they come to their bounds; sweeps of a CPU
//! that has nothing to run.
#![tactic(auto)]

#[cfg(test)]
mod sweeps;
#[cfg(test)]
mod turns;
