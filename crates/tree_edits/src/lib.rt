//! The engine: a page that is edited, and that answers from what it keeps.
//!
//! It promises that an edit is applied, or refused by its first fault and changes nothing; the last of the faults is the
//! bound on maps, by `specs/Edits.antt`. It keeps the table of the spaces of its page, which an edit renews for the subtree
//! that it changes, a forest with the painting list of each stacking context, of which an edit renews those that it can
//! change, and a grid in whose cells each item stands by its bounds in the viewport, in which an edit moves the items of that
//! subtree and those that are gone. What it keeps is always what the page says, by `specs/Faithful.antt`. All that an edit
//! renews is made ready before anything is put in, so that an edit that is refused leaves it as it was.
//!
//! The bounds of an item in the viewport are those of `specs/Bounds.antt`, and `specs/Cells.antt` says when a grid has each item
//! by them.
//!
//! The crate stands on `box_tree` for the page, its faults and its edits, on `spaces` for the table and the bound, on `stacking`
//! for the lists, on `paint_order` for the forest, on `affine` and `svg_shapes` for the bounds, on `spatial_index` for the grid,
//! and on `fractions` for the counter of steps.
#![tactic(auto)]

mod bounds;
mod changes;
mod engine;
mod item_grid;
mod kept;
mod lists;
mod memory;
mod reach;

pub use engine::Engine;
pub use memory::OutOfMemory;
