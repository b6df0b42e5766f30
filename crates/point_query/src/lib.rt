//! The queries: which elements lie under a point, and the chain of an element.
//!
//! It promises that the answers to `hit` and `top` are those of the definitions in `specs/Elements.antt`, which compute
//! them from the root of the page as it stands, that a query takes no more steps than `specs/Bound.antt` says, and none for a
//! point outside the viewport, and that `chain` answers the definition of `specs/Chain.antt`. They take no memory: each works
//! in room that its caller lends, whatever that holds. A query gathers the numbers of the items near its point from the ten
//! cells of the point in the engine's grid, leaves those whose bounds hold the point, orders them by the engine's forest,
//! topmost first, and keeps in their place the elements of those that are admitted; local points, inherited values and clips
//! are read from the engine's table of spaces. `laws` says that what is admitted at a point is near it by the definitions of
//! `specs/Near.antt`, so that no other item needs to be asked. It stands on `tree_edits` for the engine with its page, its table, its forest and its grid, on `stacking` for
//! the painting order, on `paint_order` for which item is painted later, on `scroll_clip` and `corner_shapes` for the curves of
//! boxes and for clips, on `svg_shapes` for the outlines of shapes, on `spaces` for local points, on `box_tree` for the page, on
//! `affine` and `spatial_index` for bounds and their cells, and on `fractions` for the counter of steps.
#![tactic(auto)]

mod admission;
mod areas;
mod candidates;
mod chains;
mod elements;
mod kept;
pub mod laws;
mod outlines;
mod topmost;

pub use chains::chain;
pub use elements::{hit, top};
