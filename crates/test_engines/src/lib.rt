//! Tests of the modelled disk, the disk over files, recoveries, the player of a trace and the engines by their public
//! calls, one call at a time.
#![tactic(auto)]

#[cfg(test)]
mod checks;
#[cfg(test)]
mod crashdisk_tests;
#[cfg(test)]
mod filedisk_tests;
#[cfg(test)]
mod recovery_tests;
#[cfg(test)]
mod rig_play_tests;
#[cfg(test)]
mod rollcore_tests;
#[cfg(test)]
mod walcore_tests;
