ghost use Rattle.std.specs.Prelude.{◌≡◌, ◌^◌, ◌≤◌, unsigned_abs, length};
ghost use Rattle.std.specs.List.{All};
ghost use Rattle.poly_shapes.specs.Segments.{IsPlaced, IsNear, path_from, ring};
ghost use Rattle.poly_shapes.specs.Outline.{IsMeasured, edges_of};
ghost use Rattle.poly_shapes.specs.Fill.{goes_down, goes_up, crosses_down, crosses_up, edge_winding, edge_crossings, winding, crossings};

use crate::outline::points_of;
use crate::point::{Point, Sub};
use crate::segment::Segment;

fn goes_down(edge: Segment, y: i64) -> bool
    ensures { result ≡ goes_down edge y }
{
    edge.from.y <= y && y < edge.to.y
}

fn goes_up(edge: Segment, y: i64) -> bool
    ensures { result ≡ goes_up edge y }
{
    edge.to.y <= y && y < edge.from.y
}

/// Whether an edge crosses the ray to the right from a point downwards.
fn crosses_down(edge: Segment, at: Point) -> bool
    requires from { IsPlaced edge.from }
    requires to { IsPlaced edge.to }
    requires at { IsNear at }
    ensures { result ≡ crosses_down edge at.x at.y }
{
    goes_down(edge, at.y) && edge.across(at) > 0
}

/// Whether an edge crosses the ray to the right from a point upwards.
fn crosses_up(edge: Segment, at: Point) -> bool
    requires from { IsPlaced edge.from }
    requires to { IsPlaced edge.to }
    requires at { IsNear at }
    ensures { result ≡ crosses_up edge at.x at.y }
{
    goes_up(edge, at.y) && edge.across(at) < 0
}

fn edge_winding(edge: Segment, at: Point) -> i64
    requires from { IsPlaced edge.from }
    requires to { IsPlaced edge.to }
    requires at { IsNear at }
    ensures value { result ≡ edge_winding edge at.x at.y }
    ensures size { unsigned_abs result ≤ 1 }
{
    if crosses_down(edge, at) {
        1
    } else if crosses_up(edge, at) {
        -1
    } else {
        0
    }
}

fn edge_crossings(edge: Segment, at: Point) -> u32
    requires from { IsPlaced edge.from }
    requires to { IsPlaced edge.to }
    requires at { IsNear at }
    ensures value { result ≡ edge_crossings edge at.x at.y }
    ensures size { result ≤ 1 }
{
    u32::from(crosses_down(edge, at) || crosses_up(edge, at))
}

/// The winding of the edges from a point on through one point after another.
fn path_winding(start: Point, points: &[Point], at: Point) -> i64
    requires start { IsPlaced start }
    requires points { All IsPlaced points.now }
    requires at { IsNear at }
    requires few { length points.now ≤ 2 ^ 20 }
    ensures value { result ≡ winding (path_from start points.now) at.x at.y }
    ensures size { unsigned_abs result ≤ length points.now }
{
    let mut from = start;
    let mut sum = 0;
    for &to in points {
        sum += edge_winding(Segment { from, to }, at);
        from = to;
    }
    sum
}

/// The crossings of the edges from a point on through one point after another.
fn path_crossings(start: Point, points: &[Point], at: Point) -> u32
    requires start { IsPlaced start }
    requires points { All IsPlaced points.now }
    requires at { IsNear at }
    requires few { length points.now ≤ 2 ^ 20 }
    ensures value { result ≡ crossings (path_from start points.now) at.x at.y }
    ensures size { result ≤ length points.now }
{
    let mut from = start;
    let mut count = 0;
    for &to in points {
        count += edge_crossings(Segment { from, to }, at);
        from = to;
    }
    count
}

/// The winding of a subpath, closed.
fn ring_winding(points: &[Point], at: Point) -> i64
    requires points { All IsPlaced points.now }
    requires at { IsNear at }
    requires few { length points.now ≤ 2 ^ 20 }
    ensures value { result ≡ winding (ring points.now) at.x at.y }
    ensures size { unsigned_abs result ≤ length points.now }
{
    match points.last() {
        Some(&last) => path_winding(last, points, at),
        None => 0,
    }
}

/// The crossings of a subpath, closed.
fn ring_crossings(points: &[Point], at: Point) -> u32
    requires points { All IsPlaced points.now }
    requires at { IsNear at }
    requires few { length points.now ≤ 2 ^ 20 }
    ensures value { result ≡ crossings (ring points.now) at.x at.y }
    ensures size { result ≤ length points.now }
{
    match points.last() {
        Some(&last) => path_crossings(last, points, at),
        None => 0,
    }
}

/// The winding of all subpaths of an outline.
pub fn winding_of(points: &[Point], subs: &[Sub], at: Point) -> i64
    requires outline { IsMeasured (record { points = points.now; subs = subs.now }) }
    requires at { IsNear at }
    ensures value { result ≡ winding (edges_of points.now subs.now) at.x at.y }
    ensures size { unsigned_abs result ≤ length points.now }
{
    let mut sum = 0;
    for &sub in subs {
        sum += ring_winding(points_of(points, sub), at);
    }
    sum
}

/// The crossings of all subpaths of an outline.
pub fn crossings_of(points: &[Point], subs: &[Sub], at: Point) -> u32
    requires outline { IsMeasured (record { points = points.now; subs = subs.now }) }
    requires at { IsNear at }
    ensures value { result ≡ crossings (edges_of points.now subs.now) at.x at.y }
    ensures size { result ≤ length points.now }
{
    let mut count = 0;
    for &sub in subs {
        count += ring_crossings(points_of(points, sub), at);
    }
    count
}
