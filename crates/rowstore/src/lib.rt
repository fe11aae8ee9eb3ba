// The row store: each location's messages in order of their ends.
#![tactic(auto)]

mod entry;
mod index;
mod row;
pub mod rows;
mod table;
#[cfg(test)]
mod tests;
