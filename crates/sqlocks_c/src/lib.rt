//! The C interface to the plans of SQLite's locks: what to do next, whether an index names a front, and whether a
//! journal is hot. The caller opens, locks and reads; nothing is opened here, and nothing is kept between calls.
#![tactic(auto)]

mod index;
mod journal;
mod step;
