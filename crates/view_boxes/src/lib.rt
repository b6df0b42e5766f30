// The viewports and viewBoxes of SVG content.
//
// A viewport is a rectangle in which an `svg` element shows its content. Its viewBox is the rectangle of the content's
// user space that is to fill the viewport, and `preserveAspectRatio` says how. The names are those of SVG 2, chapter 8.
//
// It promises that the map from the user space in a viewport to the one around it is exactly that of SVG 2, "Computing the
// equivalent transform of an SVG viewport", that it is missing exactly where a side of 0 disables rendering or where it
// passes the bound on maps, and that numbers are tested to be within their limits. It stands on the maps of affine, on the
// ranges of computed_style and on the lemmas of whole_numbers.
#![tactic(auto)]

mod port;
mod view_map;

pub use port::{Align, Fit, Port, Side, ViewBox};
pub use view_map::{ViewMap, view_box};
