//! Tests of what is read of damaged databases, which are made in memory.
#![tactic(auto)]

#[cfg(test)]
mod deleted_tests;
#[cfg(test)]
mod files;
#[cfg(test)]
mod leaves_tests;
#[cfg(test)]
mod printed_tests;
#[cfg(test)]
mod scripts_tests;
