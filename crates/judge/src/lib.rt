// Judges a job file, and writes the report.
#![tactic(auto)]

mod account;
pub mod fault;
pub mod report;
mod start;
mod trace;
pub mod verdict;
