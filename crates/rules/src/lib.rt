// The rules of a run and its laws, as definitions and theorems; the code of a run is proved equal to them.
#![tactic(auto)]

pub mod fault;
pub mod laws;
