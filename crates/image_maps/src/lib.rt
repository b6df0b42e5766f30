// The areas of image maps: which points an area covers.
//
// An area is a kind and the numbers that its `coords` attribute gave. The answers are exact, in whole numbers, for points
// from far outside an area too, and are those of HTML's processing of image maps: a rectangle whose ends may stand in
// either order, a circle, a polygon by the even-odd rule, or everything; too few numbers make an area empty, and numbers
// too many are dropped. Only a new area takes memory. The crate stands on the polygons of poly_shapes and on the lemmas of
// whole_numbers.
#![tactic(auto)]

mod area;
mod round;
mod straight;

pub use area::{AreaKind, AreaShape};
pub use poly_shapes::OutOfMemory;

#[cfg(test)]
mod tests;
