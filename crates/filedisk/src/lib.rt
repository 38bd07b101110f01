//! A disk over two real files, over which the engines and the recoveries can be run.
#![tactic(auto)]

mod file_disk;

pub use file_disk::FileDisk;
