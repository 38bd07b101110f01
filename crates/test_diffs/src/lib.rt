//! Tests of the changes between two tables, on databases that are made in memory.
#![tactic(auto)]

#[cfg(test)]
mod changes_tests;
#[cfg(test)]
mod files;
#[cfg(test)]
mod keyed_tests;
#[cfg(test)]
mod printed_tests;
#[cfg(test)]
mod refusals_tests;
