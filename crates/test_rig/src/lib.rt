//! Tests of the rig's libraries by their public calls: which commit files show, and the images that a crash may leave.
#![tactic(auto)]

#[cfg(test)]
mod asserts;
#[cfg(test)]
mod rig_families_tests;
#[cfg(test)]
mod rig_images_tests;
#[cfg(test)]
mod rig_judge_tests;
#[cfg(test)]
mod rig_shrink_tests;
#[cfg(test)]
mod traces;
