//! Readers and writers that fail, or move few or too many bytes, at the two ends of the workbench's engine. A call of an end
//! that failed is the last one that the engine makes of it, also where the next one would work.

mod both_ends;
mod calls;
mod engine_run;
mod lengths;
mod piece_reader;
mod piece_writer;
mod pieces;
mod reads;
mod workloads;
mod writes;
