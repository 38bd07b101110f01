//! Tests of what is said of whole files, one call at a time: the check of a database, and its view beside logs; and
//! calls of the formats' libraries, too, whose allocations are refused.
#![tactic(auto)]

#[cfg(test)]
mod asserts;
#[cfg(test)]
mod logs;
#[cfg(test)]
mod memory_tests;
#[cfg(test)]
mod past_tests;
#[cfg(test)]
mod sqcheck_tests;
#[cfg(test)]
mod sqview_tests;
#[cfg(test)]
mod survey_tests;
