//! Tests of whole machines, by their calls: every order of the steps of small workloads, the calls of a fleet, with a history and
//! without, and programs that threads run while a gate holds them. What the whole output of the built programs shows is tested in
//! `checks/cases/`, and drawn operations of a fleet by several threads are compared with those of one by `measures fleet`.
#![tactic(auto)]

#[cfg(test)]
mod comings;
#[cfg(test)]
mod endless_calls;
#[cfg(test)]
mod every_interleaving;
#[cfg(test)]
mod finding_work;
#[cfg(test)]
mod fixtures;
#[cfg(test)]
mod fleet_calls;
#[cfg(test)]
mod free_numbers;
#[cfg(test)]
mod kits;
#[cfg(test)]
mod late_wakes;
#[cfg(test)]
mod neighbours;
#[cfg(test)]
mod one_thread_again;
#[cfg(test)]
mod operation_texts;
#[cfg(test)]
mod ready_callers;
#[cfg(test)]
mod same_end;
#[cfg(test)]
mod seats;
#[cfg(test)]
mod stand;
#[cfg(test)]
mod tasks_come_and_go;
#[cfg(test)]
mod threads;
