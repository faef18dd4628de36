// Examples for the crate `rules`, as tests.
#![tactic(auto)]

#[cfg(test)]
mod maps;
#[cfg(test)]
mod tables;
