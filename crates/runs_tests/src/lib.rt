// Examples for the crate `runs`, as tests.
#![tactic(auto)]

#[cfg(test)]
mod lists;
#[cfg(test)]
mod refusals;
