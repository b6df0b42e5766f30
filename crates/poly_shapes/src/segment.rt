ghost use Rattle.std.specs.Prelude.{◌≡◌, ℤ, ◌*◌, ◌*ℤ◌, ◌^◌, ◌≤◌, unsigned_abs};
ghost use Rattle.poly_shapes.specs.Segments.{IsPlaced, IsNear, across, along, distance, square_length};

use crate::point::Point;

/// A straight segment of a subpath.
#[derive(Clone, Copy)]
pub struct Segment {
    pub from: Point,
    pub to: Point,
}

impl Segment {
    /// How far a point lies to the side of the segment, times the segment's length.
    pub fn across(self, at: Point) -> i64
        requires from { IsPlaced self.from }
        requires to { IsPlaced self.to }
        requires at { IsNear at }
        ensures value { result ≡ across self at.x at.y }
        ensures size { unsigned_abs result ≤ 2 ^ 57 }
    {
        let Segment { from, to } = self;
        product(to.x - from.x, at.y - from.y) - product(to.y - from.y, at.x - from.x)
    }

    /// How far a point lies along the segment from its start on, times the segment's length.
    pub fn along(self, at: Point) -> i64
        requires from { IsPlaced self.from }
        requires to { IsPlaced self.to }
        requires at { IsNear at }
        ensures value { result ≡ along self at.x at.y }
        ensures size { unsigned_abs result ≤ 2 ^ 57 }
    {
        let Segment { from, to } = self;
        product(to.x - from.x, at.x - from.x) + product(to.y - from.y, at.y - from.y)
    }

    /// The square of the segment's length.
    pub fn square_length(self) -> u64
        requires from { IsPlaced self.from }
        requires to { IsPlaced self.to }
        ensures value { result ≡ square_length self }
        ensures size { result ≤ 2 ^ 55 }
    {
        let Segment { from, to } = self;
        square(distance(to.x, from.x)) + square(distance(to.y, from.y))
    }
}

/// How far apart two near coordinates are.
pub fn distance(a: i64, b: i64) -> u64
    requires a { unsigned_abs a ≤ 2 ^ 28 }
    requires b { unsigned_abs b ≤ 2 ^ 28 }
    ensures value { result ≡ distance a b }
    ensures size { result ≤ 2 ^ 29 }
{
    (a - b).unsigned_abs()
}

/// The product of a difference of two placed coordinates and one of a near coordinate and a placed one.
fn product(a: i64, b: i64) -> i64
    requires a { unsigned_abs a ≤ 2 ^ 27 }
    requires b { unsigned_abs b ≤ 2 ^ 29 }
    ensures value { result ≡ a *ℤ b }
    ensures size { unsigned_abs result ≤ 2 ^ 56 }
{
    a * b
}

/// The square of a difference of two placed coordinates.
fn square(n: u64) -> u64
    requires { n ≤ 2 ^ 27 }
    ensures value { result ≡ n * n }
    ensures size { result ≤ 2 ^ 54 }
{
    n * n
}
