//! Tests of the workbench, by its calls: the words that it takes, the texts that a workload is read from and those that are printed
//! of an outcome, the line and the status of each fault, and readers and writers that fail.
#![tactic(auto)]

#[cfg(test)]
mod broken_ends;
#[cfg(test)]
mod command_words;
#[cfg(test)]
mod deed_texts;
#[cfg(test)]
mod fault_lines;
#[cfg(test)]
mod fixtures;
#[cfg(test)]
mod known_texts;
#[cfg(test)]
mod operation_texts;
#[cfg(test)]
mod report_texts;
#[cfg(test)]
mod whole_machines;
