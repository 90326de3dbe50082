//! The runnable tasks of a queue: in a balanced tree, with the sums over them, a table of their deadlines, and what is kept of the
//! last pick.

mod change;
mod deadline_table;
mod eligible;
mod key;
mod least;
mod lowering;
pub mod node;
mod parts;
pub mod picked_task;
pub mod runnable_tasks;
mod sides;
mod task_tree;
pub mod totals;
mod totals_edit;
