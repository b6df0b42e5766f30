ghost use Rattle.std.specs.Prelude.{◌≡◌, ◌↔◌, ℤ, ◌^◌, ◌<◌, unsigned_abs, IsTrue, IsNone, IfOk, IfSome, IsSomeAnd};
ghost use Rattle.poly_shapes.specs.declared.point.Cap.{Cap};
ghost use Rattle.poly_shapes.specs.declared.point.FillRule.{FillRule};
ghost use Rattle.poly_shapes.specs.Extent.{Holds, bounds_of, AreSidesWithin};
ghost use Rattle.svg_shapes.specs.Measures.{IsLength};
ghost use Rattle.svg_shapes.specs.Shapes.{IsMeasured, Interior, Perimeter, base_points, shape_bounds, IsDisabled, vertices};
ghost use Rattle.svg_shapes.specs.Held.{is_in_interior, is_on_perimeter};

use crate::boxes::{FineBox, FineBoxes};
use crate::ellipse::Ellipse;
use crate::extent::{boxes_extent, ellipse_extent, line_extent, rect_extent};
use crate::measures::{is_ellipse_measured, is_line_placed, is_rect_measured};
use crate::rect::{in_rect, on_rect};
use poly_shapes::laws::{
    bounds_hold_their_points, no_fill_reaches_out_of_the_bounds,
    no_stroke_reaches_out_of_the_moved_bounds,
};
use poly_shapes::{Bounds, Cap, FillRule, OutOfMemory, Point, Poly, line_stroke_holds};

/// A shape of SVG content, in fine units (1/4096 px): places within 2^26, sizes and radii from 0 to 2^26. SVG 2, "Basic
/// Shapes" and "Paths".
#[derive(Debug, Drop)]
pub enum Shape {
    /// Subpaths of straight segments, open or closed.
    Path(Poly),
    /// One closed subpath.
    Polygon(Poly),
    /// One open subpath.
    Polyline(Poly),
    /// The straight line between two points.
    Line {
        x1: i64,
        y1: i64,
        x2: i64,
        y2: i64,
    },
    /// A rectangle by its left top corner and its sides, with the radii of its corners.
    Rect {
        x: i64,
        y: i64,
        w: i64,
        h: i64,
        rx: i64,
        ry: i64,
    },
    /// A circle by its centre and its radius.
    Circle {
        cx: i64,
        cy: i64,
        r: i64,
    },
    /// An ellipse by its centre and its radii.
    Ellipse {
        cx: i64,
        cy: i64,
        rx: i64,
        ry: i64,
    },
    /// The boxes of a text.
    Boxes(FineBoxes),
}

impl Shape {
    /// An equal shape with memory of its own.
    pub fn copy(&self) -> Result<Shape, OutOfMemory>
        ensures { IfOk result (λ shape. shape ≡ self.now) }
    {
        Ok(match self {
            Shape::Path(poly) => Shape::Path(poly.copy()?),
            Shape::Polygon(poly) => Shape::Polygon(poly.copy()?),
            Shape::Polyline(poly) => Shape::Polyline(poly.copy()?),
            Shape::Boxes(boxes) => Shape::Boxes(boxes.copy()?),
            &Shape::Line { x1, y1, x2, y2 } => Shape::Line { x1, y1, x2, y2 },
            &Shape::Rect { x, y, w, h, rx, ry } => Shape::Rect { x, y, w, h, rx, ry },
            &Shape::Circle { cx, cy, r } => Shape::Circle { cx, cy, r },
            &Shape::Ellipse { cx, cy, rx, ry } => Shape::Ellipse { cx, cy, rx, ry },
        })
    }

    /// Whether its numbers are within their limits: places within 2^26 fine units, sizes and radii from 0 to 2^26.
    pub fn in_range(&self) -> bool
        ensures { IsTrue result ↔ IsMeasured self.now }
    {
        match self {
            Shape::Path(_) | Shape::Polygon(_) | Shape::Polyline(_) => true,
            &Shape::Line { x1, y1, x2, y2 } => is_line_placed(x1, y1, x2, y2),
            &Shape::Rect { x, y, w, h, rx, ry } => is_rect_measured(FineBox { x, y, w, h }, rx, ry),
            &Shape::Circle { cx, cy, r } => is_ellipse_measured(cx, cy, r, r),
            &Shape::Ellipse { cx, cy, rx, ry } => is_ellipse_measured(cx, cy, rx, ry),
            Shape::Boxes(boxes) => boxes.in_range(),
        }
    }

    /// How many vertices the shape counts for: the points of a path, a polygon or a polyline, 2 for a line, 2 for each
    /// box, but no more than 4,294,967,295, and 0 for another shape.
    pub fn vertices(&self) -> u32
        ensures { result ≡ vertices self.now }
    {
        match self {
            Shape::Path(poly) | Shape::Polygon(poly) | Shape::Polyline(poly) => {
                poly.points().len() as u32
            }
            Shape::Line { .. } => 2,
            Shape::Rect { .. } | Shape::Circle { .. } | Shape::Ellipse { .. } => 0,
            Shape::Boxes(boxes) => boxes.vertices(),
        }
    }

    /// Whether the interior holds a point below 2^123 in size, in fine units: the fill by a rule of a path, a polygon
    /// or a polyline, the inside of a rect, a circle or an ellipse, some box. A line has none, nor has a shape that a
    /// side or a radius of 0 disables. SVG 2, "Painting: Filling, Stroking and Marker Symbols".
    pub fn interior(&self, rule: FillRule, x: i128, y: i128) -> bool
        requires shape { IsMeasured self.now }
        requires x { unsigned_abs x < 2 ^ 123 }
        requires y { unsigned_abs y < 2 ^ 123 }
        ensures held { IsTrue result ↔ Interior self.now rule x y }
        ensures test { result ≡ is_in_interior self.now rule x y }
    {
        self.has_in_interior(rule, x, y)
    }

    /// Whether the interior holds a point, by the kind of shape.
    fn has_in_interior(&self, rule: FillRule, x: i128, y: i128) -> bool
        requires shape { IsMeasured self.now }
        requires x { unsigned_abs x < 2 ^ 123 }
        requires y { unsigned_abs y < 2 ^ 123 }
        ensures { IsTrue result ↔ Interior self.now rule x y }
    {
        match self {
            Shape::Path(poly) | Shape::Polygon(poly) | Shape::Polyline(poly) => {
                poly.is_point_in_fill(rule, x, y)
            }
            Shape::Line { .. } => false,
            &Shape::Rect {
                x: l,
                y: t,
                w,
                h,
                rx,
                ry,
            } => in_rect(FineBox { x: l, y: t, w, h }, rx, ry, x, y),
            &Shape::Circle { cx, cy, r } => Ellipse::of(cx, cy, r, r).holds(x, y),
            &Shape::Ellipse { cx, cy, rx, ry } => Ellipse::of(cx, cy, rx, ry).holds(x, y),
            Shape::Boxes(boxes) => boxes.hold(x, y),
        }
    }

    /// Whether a stroke with a width from 0 to 2^26 fine units holds a point below 2^123 in size: the stroke of a
    /// path, a polygon, a polyline or a line, the band of a rect, a circle or an ellipse. Boxes have none, nor has a
    /// shape that a side or a radius of 0 disables, nor a width of 0. SVG 2, "Painting: Filling, Stroking and Marker
    /// Symbols".
    pub fn perimeter(&self, width: i64, cap: Cap, x: i128, y: i128) -> bool
        requires shape { IsMeasured self.now }
        requires width { IsLength width }
        requires x { unsigned_abs x < 2 ^ 123 }
        requires y { unsigned_abs y < 2 ^ 123 }
        ensures held { IsTrue result ↔ Perimeter self.now (unsigned_abs width) cap x y }
        ensures test { result ≡ is_on_perimeter self.now (unsigned_abs width) cap x y }
    {
        self.has_on_perimeter(width, cap, x, y)
    }

    /// Whether a stroke holds a point, by the kind of shape.
    fn has_on_perimeter(&self, width: i64, cap: Cap, x: i128, y: i128) -> bool
        requires shape { IsMeasured self.now }
        requires width { IsLength width }
        requires x { unsigned_abs x < 2 ^ 123 }
        requires y { unsigned_abs y < 2 ^ 123 }
        ensures { IsTrue result ↔ Perimeter self.now (unsigned_abs width) cap x y }
    {
        match self {
            Shape::Path(poly) | Shape::Polygon(poly) | Shape::Polyline(poly) => {
                poly.is_point_in_stroke(width, cap, x, y)
            }
            &Shape::Line { x1, y1, x2, y2 } => line_stroke_holds(
                Point { x: x1, y: y1 },
                Point { x: x2, y: y2 },
                width,
                cap,
                x,
                y,
            ),
            &Shape::Rect {
                x: l,
                y: t,
                w,
                h,
                rx,
                ry,
            } => on_rect(FineBox { x: l, y: t, w, h }, rx, ry, width, x, y),
            &Shape::Circle { cx, cy, r } => Ellipse::of(cx, cy, r, r).has_in_band(width, x, y),
            &Shape::Ellipse { cx, cy, rx, ry } => {
                Ellipse::of(cx, cy, rx, ry).has_in_band(width, x, y)
            }
            Shape::Boxes(_) => false,
        }
    }

    /// The least closed rectangle of the shape's points, corners or opposite corners, in fine units, with each side
    /// moved out by a stroke's width from 0 to 2^26; None exactly where the shape has no point, no box, or a size
    /// that disables it. It holds every point that the interior holds, or the perimeter at that width.
    pub fn bounds(&self, width: i64) -> Option<Bounds>
        requires shape { IsMeasured self.now }
        requires width { IsLength width }
        ensures value { result ≡ shape_bounds self.now (unsigned_abs width) }
        ensures absent { IsNone result ↔ IsDisabled self.now }
        ensures interior { (rule : FillRule) (x y : ℤ) → Interior self.now rule x y → IsSomeAnd result (λ b. Holds b x y) }
        ensures perimeter { (ends : Cap) (x y : ℤ) → Perimeter self.now (unsigned_abs width) ends x y → IsSomeAnd result (λ b. Holds b x y) }
        ensures near { IfSome result (AreSidesWithin (2 ^ 28)) }
    {
        no_fill_reaches_out_of_the_bounds();
        no_stroke_reaches_out_of_the_moved_bounds();
        bounds_hold_their_points();
        match self.extent() {
            Some(extent) => Some(extent.moved_out(width)),
            None => None,
        }
    }

    /// The least closed rectangle of the base points.
    fn extent(&self) -> Option<Bounds>
        requires { IsMeasured self.now }
        ensures value { result ≡ bounds_of (base_points self.now) }
        ensures near { IfSome result (AreSidesWithin (2 ^ 27)) }
    {
        match self {
            Shape::Path(poly) | Shape::Polygon(poly) | Shape::Polyline(poly) => poly.bounds(),
            &Shape::Line { x1, y1, x2, y2 } => line_extent(x1, y1, x2, y2),
            &Shape::Rect { x, y, w, h, .. } => rect_extent(FineBox { x, y, w, h }),
            &Shape::Circle { cx, cy, r } => ellipse_extent(cx, cy, r, r),
            &Shape::Ellipse { cx, cy, rx, ry } => ellipse_extent(cx, cy, rx, ry),
            Shape::Boxes(boxes) => boxes_extent(&boxes.0),
        }
    }
}
