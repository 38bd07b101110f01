//! A damaged database as a script of SQL: its rows as far as they can be read, a line for each cell that can't,
//! and one for each page that has a fault (own).
#![tactic(auto)]

mod book;
mod cell;
mod faults;
mod found;
mod leaf;
mod leaves;
mod lost;
mod marks;
mod object;
mod row;
mod salvage;
mod table;
mod tables;

pub use salvage::print_salvage;
