ghost use Rattle.std.specs.Prelude.{◌≡◌, ◌↔◌, ◌^◌, ◌≤◌, ◌≤ℤ◌, ◌<ℤ◌, unsigned_abs, length, IsTrue, IfOk};
ghost use Rattle.std.specs.List.{All};
ghost use Rattle.image_maps.specs.Area.{IsNumber, fine, IsBetween, InRect, corner, in_twos, corners, outline_of};

use crate::area::AreaKind;
use poly_shapes::{OutOfMemory, Point, Poly, Sub};
use std::alloc::{AllocError, Global};

/// Whether the rectangle of the first four numbers holds the point.
pub fn in_rect(numbers: &[i64], x: i128, y: i128) -> bool
    requires { All IsNumber numbers.now }
    ensures { IsTrue result ↔ InRect numbers.now x y }
{
    if numbers.len() < 4 {
        return false;
    }
    is_between(numbers[0], numbers[2], x) && is_between(numbers[1], numbers[3], y)
}

/// Whether a coordinate in fine units lies between two in units, whichever of them is the lesser: the lesser is in, the
/// greater isn't.
fn is_between(one: i64, other: i64, at: i128) -> bool
    requires one { IsNumber one }
    requires other { IsNumber other }
    ensures { IsTrue result ↔ IsBetween one other at }
{
    if one <= other {
        is_from(one, other, at)
    } else {
        is_from(other, one, at)
    }
}

/// Whether a coordinate in fine units lies from the first of two in units on, and before the last.
fn is_from(first: i64, last: i64, at: i128) -> bool
    requires first { IsNumber first }
    requires last { IsNumber last }
    ensures { IsTrue result ↔ (fine first ≤ℤ at) × (at <ℤ fine last) }
{
    is_within(64 * first, 64 * last, at)
}

/// Whether a coordinate lies between two edges, of which the first is in and the last isn't.
fn is_within(first: i64, last: i64, at: i128) -> bool
    ensures { IsTrue result ↔ (first ≤ℤ at) × (at <ℤ last) }
{
    i128::from(first) <= at && at < i128::from(last)
}

/// The polygon that is kept of an area: it has a point only where the area is a polygon that isn't empty.
pub fn poly_of(alloc: Global, kind: AreaKind, numbers: &[i64]) -> Result<Poly, OutOfMemory>
    requires few { length numbers.now ≤ 2 ^ 20 }
    requires within { All IsNumber numbers.now }
    ensures { IfOk result (λ poly. poly ≡ outline_of kind numbers.now) }
{
    let points = corners_of(alloc, kind, numbers)?;
    let ring = Sub {
        first: 0,
        count: points.len() as u32,
        closed: true,
    };
    Poly::new(alloc, &points, &[ring])
}

/// The corners of the polygon that an area is.
fn corners_of(alloc: Global, kind: AreaKind, numbers: &[i64]) -> Result<Vec<Point>, AllocError>
    requires { All IsNumber numbers.now }
    ensures { IfOk result (λ points. points.items ≡ corners kind numbers.now) }
{
    match kind {
        AreaKind::Poly if numbers.len() >= 6 => in_twos(alloc, numbers),
        _ => Ok(Vec::new(alloc)),
    }
}

/// The numbers in twos, as points; an odd last one is dropped.
fn in_twos(alloc: Global, numbers: &[i64]) -> Result<Vec<Point>, AllocError>
    requires { All IsNumber numbers.now }
    ensures { IfOk result (λ points. points.items ≡ in_twos numbers.now) }
{
    let mut points = Vec::new(alloc);
    for k in 0..numbers.len() / 2 {
        points.push(corner(numbers[2 * k], numbers[2 * k + 1]))?;
    }
    Ok(points)
}

/// The point of two numbers in units, in fine units.
fn corner(x: i64, y: i64) -> Point
    requires x { IsNumber x }
    requires y { IsNumber y }
    ensures { result ≡ corner x y }
{
    Point {
        x: 64 * x,
        y: 64 * y,
    }
}
