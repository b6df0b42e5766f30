//! Where the nodes of a page stand, and what they inherit.
//!
//! `SpaceTable` keeps the space of each node of a page and the values that it inherits. The space of a node is the product of
//! the maps that `specs/Spaces.antt` names, along its containing blocks and from the viewport inward, and its values are
//! those of `specs/Values.antt`, inherited from the root on down. The table promises that it finds the new entries of a
//! subtree from the kept ones outside of it, or else that a product on the way to a node there passes the bound on maps, that
//! it puts them in without taking memory, and that a local point is the exact preimage of the point of the viewport in the
//! space that it keeps, rounded down. `laws` says that an edit of a node changes neither the space nor the values of one
//! outside of it, and so that a table that follows the edits of a page stays the table of that page. It stands on `affine` for
//! maps, on `box_tree` for the page, its containing blocks and its edits, on `computed_style` for the functions of transforms
//! and for a step of inheritance, on `view_boxes` for the maps of viewBoxes, and on `fractions` for the counter of steps.
#![tactic(auto)]

mod checked;
mod factors;
pub mod laws;
mod space;
mod table;
mod values;
mod views;

pub use factors::{bottom_border, left_border, right_border, top_border};
pub use space::FinePoint;
pub use table::{BoundOrMemory, SpaceChange, SpaceTable};

#[cfg(test)]
mod tests;
