//! Tests of weights, of placement and of one queue, by their calls: worked values of single calls, and picks of all tasks in order.
#![tactic(auto)]

#[cfg(test)]
mod attributes;
#[cfg(test)]
mod calls;
#[cfg(test)]
mod dozes;
#[cfg(test)]
mod fixtures;
#[cfg(test)]
mod queue_calls;
#[cfg(test)]
mod queue_trees;
