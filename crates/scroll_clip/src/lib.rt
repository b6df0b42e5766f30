//! Which parts of a page are cut off: the clips that nodes set on what they hold, with rounded corners.
//!
//! It promises that the curves of a node's boxes are those of `specs/Curves.antt`, that the clip of a node is that of
//! `specs/Clips.antt`, none exactly where the node doesn't clip, that a point is inside the clips of a node exactly where
//! the clip of each of its containing blocks holds it, which is read from the table of the page in at most two steps for each
//! of them, and that an edit of a node changes no clip of one outside of it (`laws`). It stands on `corner_shapes` for rounded
//! boxes, on `box_tree` for the page, its containing blocks, its edits and which nodes clip, on `spaces` for borders, for the
//! table of spaces with its local points, and for the frame law of spaces, and on `fractions` for the counter of steps.
#![tactic(auto)]

mod clips;
mod curves;
pub mod laws;

pub use clips::{clip_rounded, inside_clips};
pub use curves::{border_curve, padding_curve};

#[cfg(test)]
mod tests;
