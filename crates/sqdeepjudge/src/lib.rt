//! What a deep check finds of a view: whether the database is well formed, what its pages hold and its schema are
//! sound, each index is one of its table, and each row keeps to its table's columns (own).
#![tactic(auto)]

mod missing;
mod not_judged;
mod verdict;
mod words;

pub use missing::first_missing;
pub use not_judged::{Kind, NotJudged, Why, objects_of, things_of};
pub use verdict::{Damage, DeepVerdict, Lengths, Unjudged, deep_without, judge_deep};
