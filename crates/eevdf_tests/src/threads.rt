//! Programs, and turns, that are run at the same time, each by a thread of its own. Gates hold the threads of a program at chosen
//! operations, and give up after a bounded number of turns. A test of turns has no gate: it ends if all threads do.

mod all_at_once;
mod call_turns;
mod every_cpu;
mod gate_call;
mod gate_calls;
mod held_calls;
mod holding_gate;
mod one_holder;
mod own_turns;
mod token;
mod told_lines;
