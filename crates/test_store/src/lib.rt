//! Tests of rig_store by its public calls: a trace of a folder's files is read and played, and images of it are made.
#![tactic(auto)]

#[cfg(test)]
mod asserts;
#[cfg(test)]
mod store_tests;
