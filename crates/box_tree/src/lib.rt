//! The page: a tree of nodes with their boxes, the viewport, and the edits that change them.
//!
//! It promises that an edit is tested by the table of faults before anything is changed, that a tested edit is
//! carried out without taking memory, that the page is then the edited one of `specs/Edited.antt`, and that an edit can
//! be taken back: then the page is the one before it.
//! Each box, each picture of an image and each outline of a shape has a number, which it keeps as long as it is there, by
//! `specs/Numbers.antt`.
//! It tells what holds a node and what its used values are, by `specs/Containing.antt` and `specs/Used.antt`.
//! It stands on `fractions` for its points and its counter of steps, on `computed_style` for declared styles, and on
//! `svg_shapes`, `image_maps` and `view_boxes` for the forms of nodes.
#![tactic(auto)]

mod containing;
mod covers;
mod edit;
mod form;
mod item;
mod items;
mod kind;
mod node;
mod nodes;
mod page;
mod piece;
mod plan;
mod scroll;
mod suits;
mod sums;
mod tree;
mod used;
mod viewport;

pub use containing::{Holder, Wanted, may_hold, outermost, sought};
pub use edit::{Done, Edit, EditFault};
pub use form::Form;
pub use item::{Item, Part};
pub use kind::Kind;
pub use node::{Boxes, IdList, Node};
pub use page::Page;
pub use piece::{Piece, PieceList};
pub use plan::{Prepared, Undo};
pub use used::{
    has_acting_transform, is_atomic, is_block_container, is_block_level, is_clipping, is_floating,
    is_in_flow, is_positioned, is_real_context, is_taken_out, is_transformed, stack_level,
    used_position,
};
pub use viewport::Viewport;
