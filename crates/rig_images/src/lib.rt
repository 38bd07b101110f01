//! The images that a crash may leave of a player's files, counted, numbered and drawn (own).
#![tactic(auto)]

mod counts;
mod draws;
mod fixed;
mod image;
mod laws;
mod redraws;
mod torn;

pub use counts::Counts;
pub use draws::draw;
pub use fixed::Fixed;
pub use image::Image;
pub use laws::what_order_leaves;
pub use redraws::{draw_now, redraw};
pub use torn::{Which, draw_torn};
