// A run: threads of any language on any store, line by line.
#![tactic(auto)]

mod accesses;
mod closing;
mod log;
mod making;
mod owed;
pub mod parts;
pub mod play;
mod promises;
mod questions;
pub mod state;
mod steps;
mod threads;
mod turns;
mod views;
