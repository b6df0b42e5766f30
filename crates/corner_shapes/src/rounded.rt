ghost use Rattle.std.specs.Prelude.{◌≡◌, ◌+◌, ◌*◌, ◌^◌, ◌≤◌, ◌↔◌, ℤ, pos, ◌+ℤ◌, ◌-ℤ◌, ◌≤ℤ◌, ◌<ℤ◌, unsigned_abs, IsTrue, IfSome, SomeIff};
ghost use Rattle.corner_shapes.specs.Radii.{IsLengthWithin, AreBothWithin, AreRadiiWithin};
ghost use Rattle.corner_shapes.specs.Curve.{IsMeasured, AreBordersWithin, inner_radii, inner_corners, padding_curve, distance, FitsBoth, IsBetweenEdges, FitsTopLeft, FitsTopRight, FitsBottomRight, FitsBottomLeft, FitsCorners, InRounded};
ghost use Rattle.corner_shapes.specs.Held.{in_rounded};

use crate::ellipse::is_within_ellipse;
use crate::radii::{Corners, Radii};

/// The widths of a box's four borders, in units.
#[derive(Clone, Copy, Debug, PartialEq, Eq, Hash)]
pub struct Edges {
    pub top: i64,
    pub right: i64,
    pub bottom: i64,
    pub left: i64,
}

/// A box with rounded corners, its edges and radii in fine units or in half fine units. It holds its
/// left and top edges and not its right and bottom ones; the curves of its corners are closed.
#[derive(Clone, Copy, Debug, PartialEq, Eq, Hash)]
pub struct Rounded {
    pub l: i64,
    pub t: i64,
    pub r: i64,
    pub b: i64,
    pub corners: Corners,
}

/// A point in the units of the box that it is tested against.
#[derive(Clone, Copy)]
struct Point {
    x: i128,
    y: i128,
}

impl Rounded {
    /// The padding curve of a border box in fine units, with border widths of 0 to 2^20 units: each edge
    /// is moved in by its border, and each radius is less the border that it meets, and at least 0.
    /// CSS Backgrounds and Borders 3, "Corner Shaping".
    pub fn inner(&self, edges: &Edges) -> Rounded
        requires borders { AreBordersWithin (2 ^ 20) edges.now }
        requires value { IsMeasured self.now }
        ensures { result ≡ padding_curve self.now edges.now }
    {
        Rounded {
            l: self.l + 64 * edges.left,
            t: self.t + 64 * edges.top,
            r: self.r - 64 * edges.right,
            b: self.b - 64 * edges.bottom,
            corners: less_borders(&self.corners, edges),
        }
    }

    /// Whether the box, with edges of at most 2^34 in size and radii of 0 to 2^28, holds the point, which
    /// may lie anywhere.
    /// CSS Backgrounds and Borders 3, "Corner Shaping" and "Corner Clipping".
    pub fn holds(&self, x: i128, y: i128) -> bool
        requires { IsMeasured self.now }
        ensures held { IsTrue result ↔ InRounded self.now x y }
        ensures test { result ≡ in_rounded self.now x y }
    {
        let point = Point { x, y };
        self.has_between_edges(point) && self.fits_corners(point)
    }

    fn fits_corners(&self, point: Point) -> bool
        requires value { IsMeasured self.now }
        requires inside { IsBetweenEdges self.now point.x point.y }
        ensures { IsTrue result ↔ FitsCorners self.now point.x point.y }
    {
        self.fits_top(point) && self.fits_bottom(point)
    }

    fn fits_top(&self, point: Point) -> bool
        requires value { IsMeasured self.now }
        requires inside { IsBetweenEdges self.now point.x point.y }
        ensures { IsTrue result ↔ (FitsTopLeft self.now point.x point.y × FitsTopRight self.now point.x point.y) }
    {
        self.fits_top_left(point) && self.fits_top_right(point)
    }

    fn fits_bottom(&self, point: Point) -> bool
        requires value { IsMeasured self.now }
        requires inside { IsBetweenEdges self.now point.x point.y }
        ensures { IsTrue result ↔ (FitsBottomRight self.now point.x point.y × FitsBottomLeft self.now point.x point.y) }
    {
        self.fits_bottom_right(point) && self.fits_bottom_left(point)
    }

    fn has_between_edges(&self, point: Point) -> bool
        ensures { IsTrue result ↔ IsBetweenEdges self.now point.x point.y }
    {
        is_between(self.l, self.r, point.x) && is_between(self.t, self.b, point.y)
    }

    fn fits_top_left(&self, point: Point) -> bool
        requires value { IsMeasured self.now }
        requires inside { IsBetweenEdges self.now point.x point.y }
        ensures { IsTrue result ↔ FitsTopLeft self.now point.x point.y }
    {
        let radii = self.corners.top_left();
        fits(
            before(self.l, radii.x, point.x),
            before(self.t, radii.y, point.y),
            radii,
        )
    }

    fn fits_top_right(&self, point: Point) -> bool
        requires value { IsMeasured self.now }
        requires inside { IsBetweenEdges self.now point.x point.y }
        ensures { IsTrue result ↔ FitsTopRight self.now point.x point.y }
    {
        let radii = self.corners.top_right();
        fits(
            after(self.r, radii.x, point.x),
            before(self.t, radii.y, point.y),
            radii,
        )
    }

    fn fits_bottom_right(&self, point: Point) -> bool
        requires value { IsMeasured self.now }
        requires inside { IsBetweenEdges self.now point.x point.y }
        ensures { IsTrue result ↔ FitsBottomRight self.now point.x point.y }
    {
        let radii = self.corners.bottom_right();
        fits(
            after(self.r, radii.x, point.x),
            after(self.b, radii.y, point.y),
            radii,
        )
    }

    fn fits_bottom_left(&self, point: Point) -> bool
        requires value { IsMeasured self.now }
        requires inside { IsBetweenEdges self.now point.x point.y }
        ensures { IsTrue result ↔ FitsBottomLeft self.now point.x point.y }
    {
        let radii = self.corners.bottom_left();
        fits(
            before(self.l, radii.x, point.x),
            after(self.b, radii.y, point.y),
            radii,
        )
    }
}

/// Whether a coordinate lies between two edges, of which the first is in and the second isn't.
fn is_between(first: i64, second: i64, at: i128) -> bool
    ensures { IsTrue result ↔ (first ≤ℤ at) × (at <ℤ second) }
{
    i128::from(first) <= at && at < i128::from(second)
}

/// How far a coordinate lies before the end of a radius that begins at a left or top edge.
fn before(edge: i64, radius: i64, at: i128) -> Option<u128>
    requires edge { unsigned_abs edge ≤ 2 ^ 34 }
    requires radius { IsLengthWithin (2 ^ 28) radius }
    requires inside { edge ≤ℤ at }
    ensures found { SomeIff result (at <ℤ (edge +ℤ radius)) (distance at (edge +ℤ radius)) }
    ensures within { IfSome result (λ d. d ≤ unsigned_abs radius) }
{
    let end = i128::from(edge + radius);
    if at < end {
        Some((at - end).unsigned_abs())
    } else {
        None
    }
}

/// How far a coordinate lies from the start of a radius that ends at a right or bottom edge.
fn after(edge: i64, radius: i64, at: i128) -> Option<u128>
    requires edge { unsigned_abs edge ≤ 2 ^ 34 }
    requires radius { IsLengthWithin (2 ^ 28) radius }
    requires inside { at <ℤ edge }
    ensures found { SomeIff result ((edge -ℤ radius) ≤ℤ at) (distance at (edge -ℤ radius)) }
    ensures within { IfSome result (λ d. d ≤ unsigned_abs radius) }
{
    let start = i128::from(edge - radius);
    if start <= at {
        Some((at - start).unsigned_abs())
    } else {
        None
    }
}

/// Whether the quarter of an ellipse with these radii holds a point so far from its centre, across and
/// down; a point that doesn't belong to the quarter needs no test.
fn fits(across: Option<u128>, down: Option<u128>, radii: Radii) -> bool
    requires radii { AreBothWithin (2 ^ 28) radii }
    requires across { IfSome across (λ dx. dx ≤ unsigned_abs radii.x) }
    requires down { IfSome down (λ dy. dy ≤ unsigned_abs radii.y) }
    ensures { IsTrue result ↔ FitsBoth across down radii }
{
    match (across, down) {
        (Some(dx), Some(dy)) => is_within_ellipse(
            dx,
            dy,
            radii.x.unsigned_abs(),
            radii.y.unsigned_abs(),
        ),
        _ => true,
    }
}

/// The radii less the borders that they meet.
fn less_borders(corners: &Corners, edges: &Edges) -> Corners
    requires radii { AreRadiiWithin (2 ^ 28) corners.now }
    requires borders { AreBordersWithin (2 ^ 20) edges.now }
    ensures { result ≡ inner_corners corners.now edges.now }
{
    Corners::of(
        less_border(corners.top_left(), edges.left, edges.top),
        less_border(corners.top_right(), edges.right, edges.top),
        less_border(corners.bottom_right(), edges.right, edges.bottom),
        less_border(corners.bottom_left(), edges.left, edges.bottom),
    )
}

/// The radii of a corner in fine units less the borders that meet there, in units, and at least 0.
fn less_border(radii: Radii, across: i64, down: i64) -> Radii
    requires radii { AreBothWithin (2 ^ 28) radii }
    requires across { IsLengthWithin (2 ^ 20) across }
    requires down { IsLengthWithin (2 ^ 20) down }
    ensures { result ≡ inner_radii radii across down }
{
    Radii {
        x: (radii.x - 64 * across).max(0),
        y: (radii.y - 64 * down).max(0),
    }
}
