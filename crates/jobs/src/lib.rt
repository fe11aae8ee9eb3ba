// A job file: its head, its sections and its programs, and the text of a report.
#![tactic(auto)]

pub mod fault;
pub mod head;
pub mod job;
pub mod programs;
mod read_head;
pub mod report;
pub mod section;
pub mod text;
