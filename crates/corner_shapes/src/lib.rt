// Rounded boxes of CSS: the used radii of a box's corners, the padding curve inside its borders, and
// which points a rounded box holds.
//
// The answers are exact, in whole numbers: no square root, and no rounding but the one down to a fine
// unit (1/4096 px) by which the used radii are defined. The crate stands on std alone.
#![tactic(auto)]

mod ellipse;
mod factor;
mod radii;
mod rounded;

pub use ellipse::is_within_ellipse;
pub use radii::{Corners, used_radii};
pub use rounded::{Edges, Rounded};

#[cfg(test)]
mod tests;
