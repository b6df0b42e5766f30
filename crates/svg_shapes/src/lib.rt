// The shapes of SVG content: which points the interior of a shape holds, and which ones its stroke.
//
// A shape is a path, a polygon, a polyline, a line, a rect with its two radii, a circle, an ellipse, or the boxes of a
// text, in whole fine units (1/4096 px). The answers are exact, for points from far outside a shape too. The bands of
// rects, circles and ellipses lie between the shape grown and the shape shrunk by half the stroke's width; a side or a
// radius of 0 disables a shape. The bounds of a shape at a stroke's width hold every point that its interior or its
// perimeter holds. Only a copy takes memory. The crate stands on the rounded boxes of corner_shapes, the polygons of
// poly_shapes and the lemmas of whole_numbers.
#![tactic(auto)]

mod boxes;
mod ellipse;
mod extent;
pub mod laws;
mod measures;
mod rect;
mod shape;

pub use boxes::{FineBox, FineBoxes};
pub use poly_shapes::{Bounds, Cap, FillRule, OutOfMemory, Poly};
pub use shape::Shape;

#[cfg(test)]
mod tests;
