// Views, messages and the stores that keep them.
#![tactic(auto)]

pub mod flat;
pub mod kept;
pub mod message;
pub mod store;
#[cfg(test)]
mod tests;
pub mod view;
