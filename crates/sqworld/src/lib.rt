//! Whole runs of the engines over a modelled disk (own).
#![tactic(auto)]

mod base;
mod engine;
mod event;
mod journal_engine;
mod journal_event;
pub mod journal_world;
mod reply;
mod session;
mod wal_engine;
pub mod world;

pub use base::Base;
pub use event::Event;
pub use journal_event::JEvent;
pub use journal_world::{JournalWorld, run_journal};
pub use reply::{Crashed, Found, Reply, Run};
pub use world::{NoMemory, World, WorldOf, run_wal};
