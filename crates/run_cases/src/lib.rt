// Runs on the flat store, line by line, with what each must come to.
#![tactic(auto)]

#[cfg(test)]
mod tests;
