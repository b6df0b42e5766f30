//! The painting order (CSS 2.2, Appendix E): what of a page is painted above what.
//!
//! It promises that the list of a stacking context, in which other stacking contexts are left as entries, is that of the
//! definitions in `specs/Painting.antt`, that the lists of a page flatten to the layers of these definitions, that each
//! item of a page stands in the layer of its root once, that an edit changes no lists but those that `touched` names, and
//! that it makes no stacking context but those that `renewed` names. It stands on `box_tree` for the page and the used
//! values of its nodes, and on `paint_order` for the entries of lists.
#![tactic(auto)]

mod changes;
mod content;
mod context;
mod flat;
mod items;
pub mod laws;
mod lists;
mod members;
mod memory;
mod once;
#[cfg(test)]
mod pages;
mod pieces;
mod reach;
mod reading;
mod roles;

pub use changes::{renewed, touched};
pub use context::context_of;
pub use lists::lists_of;
pub use memory::OutOfMemory;

#[cfg(test)]
mod tests;
