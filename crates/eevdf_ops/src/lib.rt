//! The scheduler of one thread: what a machine is set up from, the deeds that are done on it and their
//! answers, and their history.
//!
//! A machine is the list of its CPUs' run queues. A deed is done at once and answered; the history of a list
//! of deeds is the list of deeds with their answers, and the machine that they leave.
//!
//! A deed comes from an operation of its CPU's program or from a request ([`Origin`]). An operation is a verb with
//! [`Arguments`] ([`Op::signature`]): by these it is printed, and what they name ([`Named`]) decides whether a setup
//! allows it.
//!
//! A deed is parted into its CPU and an act ([`parted`]): a [`LocalAct`] on the queue of that CPU alone, or a
//! [`Transfer`], by which a task goes from one queue to another. [`Solo`] does acts on the queues that it has,
//! threads on those that they have locked, by [`LocalAct::apply`] and [`Transfer::apply`]. In a sleep, a doze, an end
//! and a pull a task is taken out of one queue and put into another or the same ([`Taking::take`], [`Putting::put`]).
//! A player does these halves one by one, and others may do steps between them.
#![tactic(auto)]

mod acts;
mod cpu_id;
mod deeds;
mod from_answers;
mod halves;
mod homes;
pub mod laws;
mod local_acts;
mod machine_start;
mod named;
pub mod one_thread;
mod origin;
mod outcome;
mod parting;
pub mod pull;
mod refusals;
mod setup;
mod setup_check;
mod setup_fault;
mod setup_tasks;
mod signature;
mod solo;
mod task_spec;
mod texts;
mod transfers;
mod whole_deeds;

pub use acts::{Act, LocalAct, Transfer};
pub use cpu_id::{BadCpuId, CpuId};
pub use deeds::{Answer, Deed, Line, Op};
pub use halves::{Putting, Taking};
pub use homes::Homes;
pub use named::Named;
pub use origin::Origin;
pub use outcome::Outcome;
pub use parting::parted;
pub use setup::Setup;
pub use setup_fault::SetupFault;
pub use setup_tasks::SetupTasks;
pub use signature::Arguments;
pub use solo::Solo;
pub use task_spec::TaskSpec;
