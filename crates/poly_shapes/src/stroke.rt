ghost use Rattle.std.specs.Prelude.{◌≡◌, ◌||◌, ◌&&◌, IfSome, ◌^◌, ◌≤◌, ◌*◌, unsigned_abs};
ghost use Rattle.std.specs.List.{All};
ghost use Rattle.poly_shapes.specs.Segments.{IsPlaced, IsNear};
ghost use Rattle.poly_shapes.specs.Outline.{IsMeasured};
ghost use Rattle.poly_shapes.specs.Stroke.{is_within_half, is_beside, is_between_ends, is_just_before, is_just_beyond, body_holds, disc_holds, square_before, square_beyond, cap_holds, dot_holds, has_length, lines_from, first_of, last_of, line_holds, end_holds, outline_holds, subpath_holds, strokes_of};

use crate::outline::points_of;
use crate::point::{Cap, Point, Sub};
use crate::segment::{Segment, distance};

/// A pen that strokes segments: its width, and what it leaves at ends.
#[derive(Clone, Copy)]
pub struct Pen {
    pub width: u64,
    pub cap: Cap,
}

/// Whether an offset that is given times a length is at most half the width.
fn is_within_half(width: u64, square_length: u64, offset: u64) -> bool
    requires width { width ≤ 2 ^ 26 }
    requires length { square_length ≤ 2 ^ 55 }
    requires offset { offset ≤ 2 ^ 58 }
    ensures { result ≡ is_within_half width square_length offset }
{
    4 * square(offset) <= square(width) * u128::from(square_length)
}

fn square(n: u64) -> u128
    requires { n ≤ 2 ^ 58 }
    ensures value { result ≡ n * n }
    ensures size { result ≤ 2 ^ 116 }
{
    u128::from(n) * u128::from(n)
}

impl Segment {
    fn has_length(self) -> bool
        requires from { IsPlaced self.from }
        requires to { IsPlaced self.to }
        ensures { result ≡ has_length self }
    {
        self.square_length() > 0
    }

    fn is_beside(self, width: u64, at: Point) -> bool
        requires from { IsPlaced self.from }
        requires to { IsPlaced self.to }
        requires at { IsNear at }
        requires width { width ≤ 2 ^ 26 }
        ensures { result ≡ is_beside width self at.x at.y }
    {
        is_within_half(width, self.square_length(), self.across(at).unsigned_abs())
    }

    fn is_between_ends(self, at: Point) -> bool
        requires from { IsPlaced self.from }
        requires to { IsPlaced self.to }
        requires at { IsNear at }
        ensures { result ≡ is_between_ends self at.x at.y }
    {
        let along = self.along(at);
        0 <= along && along <= self.square_length() as i64
    }

    fn body_holds(self, width: u64, at: Point) -> bool
        requires from { IsPlaced self.from }
        requires to { IsPlaced self.to }
        requires at { IsNear at }
        requires width { width ≤ 2 ^ 26 }
        ensures { result ≡ body_holds width at.x at.y self }
    {
        self.is_between_ends(at) && self.is_beside(width, at)
    }

    /// Whether its body holds the point, or the disc at its start, where it has a join there.
    fn holds(self, joined: bool, width: u64, at: Point) -> bool
        requires from { IsPlaced self.from }
        requires to { IsPlaced self.to }
        requires at { IsNear at }
        requires width { width ≤ 2 ^ 26 }
        ensures { result ≡ body_holds width at.x at.y self || joined && disc_holds width at.x at.y self.from }
    {
        self.body_holds(width, at) || joined && disc_holds(width, at, self.from)
    }

    fn is_just_before(self, width: u64, at: Point) -> bool
        requires from { IsPlaced self.from }
        requires to { IsPlaced self.to }
        requires at { IsNear at }
        requires width { width ≤ 2 ^ 26 }
        ensures { result ≡ is_just_before width self at.x at.y }
    {
        let along = self.along(at);
        along < 0 && is_within_half(width, self.square_length(), along.unsigned_abs())
    }

    fn is_just_beyond(self, width: u64, at: Point) -> bool
        requires from { IsPlaced self.from }
        requires to { IsPlaced self.to }
        requires at { IsNear at }
        requires width { width ≤ 2 ^ 26 }
        ensures { result ≡ is_just_beyond width self at.x at.y }
    {
        let along = self.along(at);
        let square_length = self.square_length();
        let end = square_length as i64;
        end < along && is_within_half(width, square_length, (along - end).unsigned_abs())
    }

    fn square_before_holds(self, width: u64, at: Point) -> bool
        requires from { IsPlaced self.from }
        requires to { IsPlaced self.to }
        requires at { IsNear at }
        requires width { width ≤ 2 ^ 26 }
        ensures { result ≡ square_before width at.x at.y self }
    {
        self.is_just_before(width, at) && self.is_beside(width, at)
    }

    fn square_beyond_holds(self, width: u64, at: Point) -> bool
        requires from { IsPlaced self.from }
        requires to { IsPlaced self.to }
        requires at { IsNear at }
        requires width { width ≤ 2 ^ 26 }
        ensures { result ≡ square_beyond width at.x at.y self }
    {
        self.is_just_beyond(width, at) && self.is_beside(width, at)
    }
}

fn disc_holds(width: u64, at: Point, centre: Point) -> bool
    requires at { IsNear at }
    requires centre { IsPlaced centre }
    requires width { width ≤ 2 ^ 26 }
    ensures { result ≡ disc_holds width at.x at.y centre }
{
    4 * (square(distance(at.x, centre.x)) + square(distance(at.y, centre.y))) <= square(width)
}

/// Whether the cap at either end of an open subpath holds the point.
fn cap_holds(pen: Pen, at: Point, first: Segment, last: Segment) -> bool
    requires at { IsNear at }
    requires width { pen.width ≤ 2 ^ 26 }
    requires first_from { IsPlaced first.from }
    requires first_to { IsPlaced first.to }
    requires last_from { IsPlaced last.from }
    requires last_to { IsPlaced last.to }
    ensures { result ≡ cap_holds pen.cap pen.width at.x at.y first last }
{
    match pen.cap {
        Cap::Butt => false,
        Cap::Round => {
            disc_holds(pen.width, at, first.from) || disc_holds(pen.width, at, last.to)
        }
        Cap::Square => {
            first.square_before_holds(pen.width, at) || last.square_beyond_holds(pen.width, at)
        }
    }
}

/// Whether the stroke of a subpath that lies at one point holds the point.
fn dot_holds(pen: Pen, at: Point, dot: Point) -> bool
    requires at { IsNear at }
    requires width { pen.width ≤ 2 ^ 26 }
    requires dot { IsPlaced dot }
    ensures { result ≡ dot_holds pen.cap pen.width at.x at.y dot }
{
    match pen.cap {
        Cap::Butt => false,
        Cap::Round => disc_holds(pen.width, at, dot),
        Cap::Square => {
            2 * distance(at.x, dot.x) <= pen.width && 2 * distance(at.y, dot.y) <= pen.width
        }
    }
}

/// The first segment with a length of those from a point on through one point after another.
fn first_segment(start: Point, points: &[Point]) -> Option<Segment>
    requires start { IsPlaced start }
    requires points { All IsPlaced points.now }
    ensures value { result ≡ first_of (lines_from start points.now) }
    ensures placed { IfSome result (λ s. IsPlaced s.from × IsPlaced s.to) }
{
    let mut from = start;
    for &to in points {
        let segment = Segment { from, to };
        if segment.has_length() {
            return Some(segment);
        }
        from = to;
    }
    None
}

/// The last segment with a length of those from a point on through one point after another, or one before them.
fn last_segment(before: Segment, start: Point, points: &[Point]) -> Segment
    requires before_from { IsPlaced before.from }
    requires before_to { IsPlaced before.to }
    requires start { IsPlaced start }
    requires points { All IsPlaced points.now }
    ensures value { result ≡ last_of before (lines_from start points.now) }
    ensures from { IsPlaced result.from }
    ensures to { IsPlaced result.to }
{
    let mut from = start;
    let mut last = before;
    for &to in points {
        let segment = Segment { from, to };
        if segment.has_length() {
            last = segment;
        }
        from = to;
    }
    last
}

/// Whether the body of some segment with a length holds the point, or the disc at its start, where it has a join there.
fn line_holds(joined: bool, width: u64, at: Point, start: Point, points: &[Point]) -> bool
    requires at { IsNear at }
    requires width { width ≤ 2 ^ 26 }
    requires start { IsPlaced start }
    requires points { All IsPlaced points.now }
    ensures { result ≡ line_holds joined width at.x at.y (lines_from start points.now) }
{
    let mut from = start;
    let mut joined = joined;
    for &to in points {
        let side = Segment { from, to };
        if side.has_length() {
            if side.holds(joined, width, at) {
                return true;
            }
            joined = true;
        }
        from = to;
    }
    false
}

/// Whether the stroke of a subpath holds the point, where the subpath goes from a point on through one point after
/// another, a closed one from its last point; `dot` is its first point.
fn outline_holds(
    closed: bool,
    pen: Pen,
    at: Point,
    dot: Point,
    start: Point,
    through: &[Point],
) -> bool
    requires at { IsNear at }
    requires width { pen.width ≤ 2 ^ 26 }
    requires dot { IsPlaced dot }
    requires start { IsPlaced start }
    requires points { All IsPlaced through.now }
    ensures { result ≡ outline_holds closed pen.cap pen.width at.x at.y dot (lines_from start through.now) }
{
    match first_segment(start, through) {
        None => dot_holds(pen, at, dot),
        Some(first) => {
            line_holds(closed, pen.width, at, start, through)
                || end_holds(closed, pen, at, first, start, through)
        }
    }
}

/// Whether the cap at an end holds the point: a closed subpath has no end.
fn end_holds(
    closed: bool,
    pen: Pen,
    at: Point,
    first: Segment,
    start: Point,
    through: &[Point],
) -> bool
    requires at { IsNear at }
    requires width { pen.width ≤ 2 ^ 26 }
    requires first_from { IsPlaced first.from }
    requires first_to { IsPlaced first.to }
    requires start { IsPlaced start }
    requires points { All IsPlaced through.now }
    ensures { result ≡ end_holds closed pen.cap pen.width at.x at.y first (lines_from start through.now) }
{
    !closed && cap_holds(pen, at, first, last_segment(first, start, through))
}

/// Whether the stroke of a subpath holds the point.
pub fn subpath_holds(points: &[Point], closed: bool, pen: Pen, at: Point) -> bool
    requires at { IsNear at }
    requires width { pen.width ≤ 2 ^ 26 }
    requires points { All IsPlaced points.now }
    ensures { result ≡ subpath_holds closed pen.cap pen.width at.x at.y points.now }
{
    let count = points.len();
    if count < 2 {
        return false;
    }
    let first = points[0];
    if closed {
        outline_holds(true, pen, at, first, points[count - 1], points)
    } else {
        outline_holds(false, pen, at, first, first, &points[1..])
    }
}

/// Whether the stroke of some subpath holds the point.
pub fn strokes_of(points: &[Point], subs: &[Sub], pen: Pen, at: Point) -> bool
    requires outline { IsMeasured (record { points = points.now; subs = subs.now }) }
    requires at { IsNear at }
    requires width { pen.width ≤ 2 ^ 26 }
    ensures { result ≡ strokes_of pen.cap pen.width at.x at.y points.now subs.now }
{
    for &sub in subs {
        if subpath_holds(points_of(points, sub), sub.closed, pen, at) {
            return true;
        }
    }
    false
}
