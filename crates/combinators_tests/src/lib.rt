// Examples for the crate `combinators`, as tests.
#![tactic(auto)]

#[cfg(test)]
mod lifts;
