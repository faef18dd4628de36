// Examples for the crate `machines`, as tests.
#![tactic(auto)]

#[cfg(test)]
mod turing;
