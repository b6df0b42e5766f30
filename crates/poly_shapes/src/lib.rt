// Shapes with straight sides: which points the fill and the stroke of polygons and polylines hold.
//
// The answers are exact, in whole numbers. The fill is that of SVG 2 under both rules, by the winding and the crossings
// of all edges; the stroke is that of SVG 2 under the three caps, with round joins throughout. Only a new shape takes
// memory. The crate stands on the lemmas of whole_numbers, and on std.
#![tactic(auto)]

mod bounds;
mod fill;
pub mod laws;
mod line;
mod memory;
mod outline;
mod point;
mod poly;
mod segment;
mod stroke;

pub use bounds::bounds_of;
pub use line::line_stroke_holds;
pub use memory::OutOfMemory;
pub use point::{Bounds, Cap, FillRule, Point, Sub};
pub use poly::Poly;

#[cfg(test)]
mod tests;
