//! The C interface to the arithmetic of reading a view: in which page the bytes of a range are, and how many of them
//! there are. Nothing is read here, and nothing is kept between calls.
#![tactic(auto)]

mod piece;
