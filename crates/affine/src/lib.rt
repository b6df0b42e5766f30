// Affine maps of the plane, exact and within a bound.
//
// A map is seven whole numbers in lowest terms: it takes (x, y) to ((a x + c y + e) / q, (b x + d y + f) / q), the
// matrix of CSS Transforms 1 over one denominator. Maps are made of parts or of transform functions and composed, the
// right one first. A map that would pass the bound is None, and nothing is rounded.
//
// It promises that each product is exact and None exactly past the bound; that a local point is 64 times the exact
// preimage, rounded down, and None exactly where the map is singular; and that a hull is the least rectangle of whole
// units that holds every image of a closed rectangle, met with a region. specs/Point.antt says what a map means as a
// function on pairs of exact fractions, and the contracts tie the parts to that meaning.
// It stands on fractions, on the transform functions of computed_style and on the lemmas of whole_numbers.
#![tactic(auto)]

mod functions;
mod hulls;
mod map;
mod points;

pub use functions::{identity, matrix, quarter, scale, translate};
pub use hulls::hull;
pub use map::{Map, Parts, compose, from_parts};
pub use points::{is_singular, local};
