// Thread languages: what a thread does next, and how it goes on.
#![tactic(auto)]

pub mod action;
mod current;
pub mod language;
pub mod modes;
pub mod program;
pub mod program_lines;
pub mod read_program;
pub mod read_registers;
pub mod read_strips;
pub mod register_thread;
pub mod registers;
pub mod replay;
pub mod strip_thread;
pub mod strips;
