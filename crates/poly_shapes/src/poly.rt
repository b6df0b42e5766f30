ghost use Rattle.std.specs.Prelude.{◌≡◌, ◌↔◌, ◌^◌, ◌≤◌, unsigned_abs, length, [], IsTrue, IfOk, IfSome, IsNone, IsSomeAnd, pos, ◌≤ℤ◌};
ghost use Rattle.std.specs.List.{All};
ghost use Rattle.poly_shapes.specs.Segments.{IsPlaced, IsNear};
ghost use Rattle.poly_shapes.specs.Outline.{Outline, AreTiled, IsMeasured, edges};
ghost use Rattle.poly_shapes.specs.Extent.{bounds_of, Holds, LiesIn, moved_out, AreSidesWithin};
ghost use Rattle.poly_shapes.specs.declared.point.Bounds.{Bounds};
ghost use Rattle.poly_shapes.specs.Fill.{winding, crossings, Fills};
ghost use Rattle.poly_shapes.specs.Stroke.{strokes, strokes_of};

use crate::bounds::{bounds_hold, bounds_of, reach_holds};
use crate::fill::{crossings_of, winding_of};
use crate::memory::OutOfMemory;
use crate::point::{Bounds, Cap, FillRule, Point, Sub};
use crate::stroke::{Pen, strokes_of};
use std::alloc::Global;
use std::marker::Model;

/// A shape with straight sides: its points and its subpaths, which contracts see as one outline.
#[derive(Debug, Drop)]
pub struct Poly {
    points: Vec<Point>,
    subs: Vec<Sub>,
    bounds: Option<Bounds>,
}

impl Model for Poly {
    ghost use Rattle.std.specs.Prelude.{◌≡◌};
    ghost use Rattle.poly_shapes.specs.Outline.{Outline, IsMeasured};
    ghost use Rattle.poly_shapes.specs.Extent.{bounds_of};

    ghost Value = { Outline };

    ghost view = { λ poly. record { points = poly.points.items; subs = poly.subs.items } };

    ghost invariant = { λ poly. IsMeasured (record { points = poly.points.items; subs = poly.subs.items }) × (poly.bounds ≡ bounds_of poly.points.items) };
}

impl Poly {
    /// A shape with just these points, at most 524,288 of them with coordinates within 2^26, and these subpaths, which
    /// tile the points in order.
    pub fn new(alloc: Global, points: &[Point], subs: &[Sub]) -> Result<Poly, OutOfMemory>
        requires placed { All IsPlaced points.now }
        requires few { length points.now ≤ 2 ^ 19 }
        requires tiled { AreTiled 0 (length points.now) subs.now }
        ensures { IfOk result (λ poly. poly ≡ record { points = points.now; subs = subs.now }) }
    {
        let bounds = bounds_of(points);
        let points = Vec::from_slice(alloc, points)?;
        let subs = Vec::from_slice(alloc, subs)?;
        Ok(Poly {
            points,
            subs,
            bounds,
        })
    }

    /// An equal shape in memory of its own.
    pub fn copy(&self) -> Result<Poly, OutOfMemory>
        ensures { IfOk result (λ poly. poly ≡ self.now) }
    {
        Poly::new(*self.points.allocator(), &self.points, &self.subs)
    }

    /// Its points, in order.
    pub fn points(&self) -> &[Point]
        ensures points { result.now ≡ self.now.points }
        ensures measured { IsMeasured self.now }
    {
        &self.points
    }

    /// Its subpaths, in order.
    pub fn subs(&self) -> &[Sub]
        ensures { result.now ≡ self.now.subs }
    {
        &self.subs
    }

    /// The least closed rectangle that holds its points, in their units; None exactly where there is no point.
    pub fn bounds(&self) -> Option<Bounds>
        ensures value { result ≡ bounds_of self.now.points }
        ensures absent { IsNone result ↔ (self.now.points ≡ []) }
        ensures holds { IfSome result (λ b. All (λ p. Holds b p.x p.y) self.now.points) }
        ensures least { IfSome result (λ b. (outer : Bounds) → All (λ p. Holds outer p.x p.y) self.now.points → LiesIn b outer) }
        ensures near { IfSome result (λ b. AreSidesWithin (2 ^ 26) b) }
    {
        self.bounds
    }

    /// How often the outline, each subpath closed, goes round a point within 2^28: downwards crossings of the ray to
    /// the right less upwards ones. SVG 2, "The 'fill-rule' property".
    pub fn winding(&self, x: i128, y: i128) -> i64
        requires x { unsigned_abs x ≤ 2 ^ 28 }
        requires y { unsigned_abs y ≤ 2 ^ 28 }
        ensures value { result ≡ winding (edges self.now) x y }
        ensures size { unsigned_abs result ≤ length self.now.points }
    {
        winding_of(&self.points, &self.subs, spot(x, y))
    }

    /// How many edges of the outline, each subpath closed, the ray to the right from a point within 2^28 crosses. SVG
    /// 2, "The 'fill-rule' property".
    pub fn crossings(&self, x: i128, y: i128) -> u32
        requires x { unsigned_abs x ≤ 2 ^ 28 }
        requires y { unsigned_abs y ≤ 2 ^ 28 }
        ensures value { result ≡ crossings (edges self.now) x y }
        ensures size { result ≤ length self.now.points }
    {
        crossings_of(&self.points, &self.subs, spot(x, y))
    }

    /// Whether the fill by a rule holds a point within 2^28; a point that it holds lies within the bounds. SVG 2, "The
    /// 'fill-rule' property".
    pub fn fills(&self, rule: FillRule, x: i128, y: i128) -> bool
        requires x { unsigned_abs x ≤ 2 ^ 28 }
        requires y { unsigned_abs y ≤ 2 ^ 28 }
        ensures value { IsTrue result ↔ Fills rule (edges self.now) x y }
        ensures within { IsTrue result → IsSomeAnd (bounds_of self.now.points) (λ b. Holds b x y) }
    {
        bounds_hold(self.bounds, spot(x, y)) && self.is_filled(rule, x, y)
    }

    /// Whether the fill by a rule holds a point, which may lie anywhere. SVG 2, "The 'fill-rule' property".
    pub fn is_point_in_fill(&self, rule: FillRule, x: i128, y: i128) -> bool
        ensures { IsTrue result ↔ Fills rule (edges self.now) x y }
    {
        // no placed point is further off
        let _ = &self.points;
        is_near(x, y) && self.fills(rule, x, y)
    }

    fn is_filled(&self, rule: FillRule, x: i128, y: i128) -> bool
        requires x { unsigned_abs x ≤ 2 ^ 28 }
        requires y { unsigned_abs y ≤ 2 ^ 28 }
        ensures { IsTrue result ↔ Fills rule (edges self.now) x y }
    {
        match rule {
            FillRule::NonZero => self.winding(x, y) != 0,
            FillRule::EvenOdd => self.crossings(x, y) % 2 == 1,
        }
    }

    /// Whether the stroke of a width from 0 to 2^26, in the points' units, holds a point within 2^28: some segment's
    /// body, some join or some end does. Joins are round. A point that it holds lies within the bounds, moved out by
    /// the width. SVG 2, "Stroke properties".
    pub fn strokes(&self, width: i64, cap: Cap, x: i128, y: i128) -> bool
        requires width_above { pos 0 ≤ℤ width }
        requires width_below { width ≤ℤ pos (2 ^ 26) }
        requires x { unsigned_abs x ≤ 2 ^ 28 }
        requires y { unsigned_abs y ≤ 2 ^ 28 }
        ensures value { result ≡ strokes self.now (unsigned_abs width) cap x y }
        ensures within { IsTrue result → IsSomeAnd (bounds_of self.now.points) (λ b. Holds (moved_out (unsigned_abs width) b) x y) }
    {
        let width = width.unsigned_abs();
        width > 0 && self.is_stroked(Pen { width, cap }, spot(x, y))
    }

    /// Whether the stroke of a width from 0 to 2^26, in the points' units, holds a point, which may lie anywhere. SVG
    /// 2, "Stroke properties".
    pub fn is_point_in_stroke(&self, width: i64, cap: Cap, x: i128, y: i128) -> bool
        requires width_above { pos 0 ≤ℤ width }
        requires width_below { width ≤ℤ pos (2 ^ 26) }
        ensures { result ≡ strokes self.now (unsigned_abs width) cap x y }
    {
        // no placed point is further off by more than the width
        let _ = &self.points;
        is_near(x, y) && self.strokes(width, cap, x, y)
    }

    fn is_stroked(&self, pen: Pen, at: Point) -> bool
        requires width { pen.width ≤ 2 ^ 26 }
        requires at { IsNear at }
        ensures value { result ≡ strokes_of pen.cap pen.width at.x at.y self.now.points self.now.subs }
        ensures within { IsTrue result → IsSomeAnd (bounds_of self.now.points) (λ b. Holds (moved_out pen.width b) at.x at.y) }
    {
        reach_holds(self.bounds, pen.width, at) && strokes_of(&self.points, &self.subs, pen, at)
    }
}

/// Whether a point lies within 2^28.
pub fn is_near(x: i128, y: i128) -> bool
    ensures { IsTrue result ↔ (unsigned_abs x ≤ 2 ^ 28) × (unsigned_abs y ≤ 2 ^ 28) }
{
    x.unsigned_abs() <= 1 << 28 && y.unsigned_abs() <= 1 << 28
}

/// The point with these coordinates.
pub fn spot(x: i128, y: i128) -> Point
    requires x { unsigned_abs x ≤ 2 ^ 28 }
    requires y { unsigned_abs y ≤ 2 ^ 28 }
    ensures { result ≡ record { x = x; y = y } }
{
    Point {
        x: x as i64,
        y: y as i64,
    }
}
