ghost use Rattle.std.specs.Prelude.{◌≡◌, IsTrue};
ghost use Rattle.std.specs.List.{All};
ghost use Rattle.poly_shapes.specs.Segments.{IsPlaced};
ghost use Rattle.svg_shapes.specs.declared.shape.Shape.TheVariants.{Rect};
ghost use Rattle.svg_shapes.specs.Measures.{IsPlace, IsLength, IsBoxMeasured};
ghost use Rattle.svg_shapes.specs.Shapes.{IsMeasured};

use super::*;
use poly_shapes::{Point, Sub};
use std::alloc::Global;
use std::process::Abort;
use std::test::Fail;

const FAR: i128 = 5_000_000_000_000_000_000_000_000_000_000_000_000;

// A point and whether it is held.
type Case = (i64, i64, bool);

fn assert_interior(rt: &impl Abort, shape: &Shape, rule: FillRule, cases: &[Case])
    requires { IsMeasured shape.now }
{
    for &(x, y, held) in cases {
        let interior = shape.interior(rule, i128::from(x), i128::from(y));
        assert_eq!(rt; interior, held, "{x} {y}");
    }
}

fn assert_perimeter(rt: &impl Abort, shape: &Shape, width: i64, cap: Cap, cases: &[Case])
    requires shape { IsMeasured shape.now }
    requires width { IsLength width }
{
    for &(x, y, held) in cases {
        let perimeter = shape.perimeter(width, cap, i128::from(x), i128::from(y));
        assert_eq!(rt; perimeter, held, "{x} {y}");
    }
}

// Neither the interior nor the perimeter holds points from far off.
fn assert_near(rt: &impl Abort, shape: &Shape)
    requires { IsMeasured shape.now }
{
    for (x, y) in [(FAR, 5), (5, -FAR), (-FAR, FAR)] {
        assert_eq!(rt; shape.interior(FillRule::NonZero, x, y), false);
        assert_eq!(rt; shape.interior(FillRule::EvenOdd, x, y), false);
        assert_eq!(rt; shape.perimeter(67_108_864, Cap::Square, x, y), false);
    }
}

// A shape that holds none of these points, neither inside nor on a stroke, and has no bounds.
fn assert_disabled(rt: &impl Abort, shape: &Shape)
    requires { IsMeasured shape.now }
{
    let none = [(0, 0, false), (5, 5, false), (10, 10, false)];
    assert_interior(rt, shape, FillRule::NonZero, &none);
    assert_perimeter(rt, shape, 10, Cap::Square, &none);
    assert_eq!(rt; shape.bounds(10), None);
    assert_eq!(rt; shape.bounds(0), None);
}

fn is_placed(p: Point) -> bool
    ensures { IsTrue result → IsPlaced p }
{
    p.x.unsigned_abs() <= 1 << 26 && p.y.unsigned_abs() <= 1 << 26
}

fn are_placed(points: &[Point]) -> bool
    ensures { IsTrue result → All IsPlaced points.now }
{
    points.iter().all(|p| is_placed(*p))
}

fn points_of(alloc: Global, places: &[(i64, i64)]) -> Result<Vec<Point>, Fail> {
    let mut points = Vec::new(alloc);
    for &(x, y) in places {
        points.push(Point { x, y })?;
    }
    Ok(points)
}

// One subpath through these points.
fn subpath(
    rt: &impl Abort,
    alloc: Global,
    places: &[(i64, i64)],
    closed: bool,
) -> Result<Poly, Fail> {
    let points = points_of(alloc, places)?;
    assert!(rt; points.len() < 100);
    assert!(rt; are_placed(&points));
    let count = points.len() as u32;
    let sub = Sub {
        first: 0,
        count,
        closed,
    };
    Ok(Poly::new(alloc, &points, &[sub])?)
}

// Two subpaths through these points, of which the first is closed and the second open.
fn closed_and_open(
    rt: &impl Abort,
    alloc: Global,
    places: &[(i64, i64)],
    first: u32,
) -> Result<Poly, Fail> {
    let points = points_of(alloc, places)?;
    assert!(rt; points.len() < 100);
    assert!(rt; are_placed(&points));
    let all = points.len() as u32;
    assert!(rt; first <= all);
    let closed = Sub {
        first: 0,
        count: first,
        closed: true,
    };
    let open = Sub {
        first,
        count: all - first,
        closed: false,
    };
    Ok(Poly::new(alloc, &points, &[closed, open])?)
}

fn rect(x: i64, y: i64, w: i64, h: i64, rx: i64, ry: i64) -> Shape
    ensures { result ≡ Rect x y w h rx ry }
{
    Shape::Rect { x, y, w, h, rx, ry }
}

// One radius of 0 makes the corners square; the right and bottom edges are out.
#[test]
fn rect_with_square_corners(rt: HostRuntime) {
    let square = rect(10, 20, 30, 40, 0, 5);
    let cases = [
        (10, 20, true),
        (39, 59, true),
        (9, 30, false),
        (40, 30, false),
        (20, 19, false),
        (20, 60, false),
    ];
    assert_interior(&rt, &square, FillRule::NonZero, &cases);
    assert_eq!(rt; square.vertices(), 0);
    assert_near(&rt, &square);
    let none = [(10, 20, false), (10, 30, false), (9, 30, false)];
    assert_perimeter(&rt, &square, 0, Cap::Butt, &none);
    // the grown rect goes from (9, 19) to (41, 61), the shrunk one from (11, 21) to (39, 59)
    let band_of_two = [
        (8, 30, false),
        (9, 30, true),
        (10, 30, true),
        (11, 30, false),
        (38, 30, false),
        (39, 30, true),
        (40, 30, true),
        (41, 30, false),
        (20, 18, false),
        (20, 19, true),
        (20, 21, false),
        (20, 58, false),
        (20, 59, true),
        (20, 60, true),
        (20, 61, false),
        // the grown corners are round, with the radius 1
        (9, 19, false),
        (9, 20, true),
        (10, 19, true),
        (40, 60, true),
    ];
    assert_perimeter(&rt, &square, 2, Cap::Butt, &band_of_two);
    // the grown rect goes from (8.5, 18.5) to (41.5, 61.5), the shrunk one from (11.5, 21.5) to (38.5, 58.5)
    let band_of_three = [
        (8, 30, false),
        (9, 30, true),
        (11, 30, true),
        (12, 30, false),
        (38, 30, false),
        (39, 30, true),
        (41, 30, true),
        (42, 30, false),
        // (9, 19) lies 1 and 1 from the centre of a corner with the radius 1.5
        (9, 19, true),
        (8, 19, false),
    ];
    assert_perimeter(&rt, &square, 3, Cap::Butt, &band_of_three);
    let around = Bounds {
        l: 7,
        t: 17,
        r: 43,
        b: 63,
    };
    assert_eq!(rt; square.bounds(3), Some(around));
}

// Radii of 10 and 5, so that the top left corner has its centre at (10, 5).
#[test]
fn rect_with_round_corners(rt: HostRuntime) {
    let card = rect(0, 0, 40, 30, 10, 5);
    let cases = [
        // 6 and 4 from the centre, and 8 and 3, are on the curve
        (4, 1, true),
        (3, 1, false),
        (4, 0, false),
        (2, 2, true),
        (1, 2, false),
        (0, 5, true),
        (0, 4, false),
        (10, 0, true),
        (9, 0, false),
        (20, 15, true),
        (40, 15, false),
    ];
    assert_interior(&rt, &card, FillRule::EvenOdd, &cases);
    // grown by 2 the radii are 12 and 7, shrunk by 2 they are 8 and 3
    let band = [
        (-3, 10, false),
        (-2, 10, true),
        (1, 10, true),
        (2, 10, false),
        (0, 0, false),
        (1, 0, false),
        (2, 0, true),
        (2, 1, true),
        (4, 2, true),
        (6, 3, false),
        (20, 15, false),
    ];
    assert_perimeter(&rt, &card, 4, Cap::Round, &band);
    // shrunk by 10 the corners are square: from (10, 10) to (30, 20)
    let wide = [
        (9, 10, true),
        (10, 10, false),
        (29, 19, false),
        (30, 10, true),
        (29, 20, true),
    ];
    assert_perimeter(&rt, &card, 20, Cap::Butt, &wide);
    // shrunk by 30 there is no side left
    let whole = [
        (20, 15, true),
        (-30, 15, true),
        (-31, 15, false),
        (70, 15, false),
    ];
    assert_perimeter(&rt, &card, 60, Cap::Butt, &whole);
    // radii of more than half the sides make a circle round (5, 5)
    let round = rect(0, 0, 10, 10, 100, 100);
    let inside = [
        (1, 2, true),
        (1, 1, false),
        (0, 5, true),
        (0, 4, false),
        (9, 5, true),
        (10, 5, false),
    ];
    assert_interior(&rt, &round, FillRule::NonZero, &inside);
}

#[test]
fn disabled_shapes(rt: HostRuntime) -> Result<(), Fail> {
    assert_disabled(&rt, &rect(0, 0, 0, 10, 0, 0));
    assert_disabled(&rt, &rect(0, 0, 10, 0, 3, 3));
    let circle = Shape::Circle { cx: 5, cy: 5, r: 0 };
    assert_disabled(&rt, &circle);
    let flat = Shape::Ellipse {
        cx: 5,
        cy: 5,
        rx: 0,
        ry: 8,
    };
    assert_disabled(&rt, &flat);
    let thin = Shape::Ellipse {
        cx: 5,
        cy: 5,
        rx: 8,
        ry: 0,
    };
    assert_disabled(&rt, &thin);
    let path = Shape::Path(subpath(&rt, rt.alloc(), &[], true)?);
    assert_disabled(&rt, &path);
    assert_eq!(rt; path.vertices(), 0);
    let boxes = Shape::Boxes(FineBoxes(Vec::new(rt.alloc())));
    assert_disabled(&rt, &boxes);
    assert_eq!(rt; boxes.vertices(), 0);
    Ok(())
}

// The circle round (100, 100) with the radius 50, where 30^2 + 40^2 = 50^2.
#[test]
fn points_of_a_circle(rt: HostRuntime) {
    let circle = Shape::Circle {
        cx: 100,
        cy: 100,
        r: 50,
    };
    let inside = [
        (100, 100, true),
        (150, 100, true),
        (151, 100, false),
        (50, 100, true),
        (130, 140, true),
        (131, 140, false),
        (130, 141, false),
    ];
    assert_interior(&rt, &circle, FillRule::NonZero, &inside);
    assert_near(&rt, &circle);
    assert_eq!(rt; circle.vertices(), 0);
    assert_perimeter(&rt, &circle, 0, Cap::Butt, &[(150, 100, false)]);
    // between the radii 45 and 55
    let even = [
        (100, 100, false),
        (145, 100, false),
        (146, 100, true),
        (155, 100, true),
        (156, 100, false),
        (127, 136, false),
        (128, 136, true),
        (133, 144, true),
        (134, 144, false),
    ];
    assert_perimeter(&rt, &circle, 10, Cap::Butt, &even);
    // between the radii 47.5 and 52.5
    let odd = [
        (147, 100, false),
        (148, 100, true),
        (152, 100, true),
        (153, 100, false),
    ];
    assert_perimeter(&rt, &circle, 5, Cap::Butt, &odd);
    // a shrunk radius of 0.5 holds the centre, one of 0 doesn't
    assert_perimeter(
        &rt,
        &circle,
        99,
        Cap::Butt,
        &[(100, 100, false), (101, 100, true)],
    );
    assert_perimeter(
        &rt,
        &circle,
        100,
        Cap::Butt,
        &[(100, 100, true), (200, 100, true), (201, 100, false)],
    );
    assert_perimeter(&rt, &circle, 120, Cap::Butt, &[(100, 100, true)]);
    let around = Bounds {
        l: 40,
        t: 40,
        r: 160,
        b: 160,
    };
    assert_eq!(rt; circle.bounds(10), Some(around));
}

// The ellipse round (0, 0) with the radii 30 and 20, on which (18, 16) lies: 18 / 30 = 3 / 5 and 16 / 20 = 4 / 5.
#[test]
fn points_of_an_ellipse(rt: HostRuntime) {
    let ellipse = Shape::Ellipse {
        cx: 0,
        cy: 0,
        rx: 30,
        ry: 20,
    };
    let inside = [
        (30, 0, true),
        (31, 0, false),
        (0, 20, true),
        (0, 21, false),
        (18, 16, true),
        (19, 16, false),
        (18, 17, false),
        (-18, -16, true),
    ];
    assert_interior(&rt, &ellipse, FillRule::NonZero, &inside);
    assert_near(&rt, &ellipse);
    assert_eq!(rt; ellipse.vertices(), 0);
    // between the radii 20 and 10, and 40 and 30
    let band = [
        (20, 0, false),
        (21, 0, true),
        (40, 0, true),
        (41, 0, false),
        (0, 10, false),
        (0, 11, true),
        (0, 30, true),
        (0, 31, false),
        (24, 24, true),
        (25, 24, false),
        (12, 8, false),
        (13, 8, true),
    ];
    assert_perimeter(&rt, &ellipse, 20, Cap::Butt, &band);
    // shrunk by 20 one radius is 0
    assert_perimeter(&rt, &ellipse, 40, Cap::Butt, &[(0, 0, true), (5, 0, true)]);
    let around = Bounds {
        l: -30,
        t: -20,
        r: 30,
        b: 20,
    };
    assert_eq!(rt; ellipse.bounds(0), Some(around));
}

// The line from (0, 0) to (30, 40), which is 50 long: 5 to its side is (-4, 3).
#[test]
fn points_of_a_line(rt: HostRuntime) {
    let line = Shape::Line {
        x1: 0,
        y1: 0,
        x2: 30,
        y2: 40,
    };
    assert_interior(
        &rt,
        &line,
        FillRule::NonZero,
        &[(15, 20, false), (0, 0, false)],
    );
    assert_near(&rt, &line);
    assert_eq!(rt; line.vertices(), 2);
    assert_perimeter(&rt, &line, 0, Cap::Round, &[(15, 20, false), (0, 0, false)]);
    let butt = [
        (15, 20, true),
        (11, 23, true),
        (10, 23, false),
        (-4, 3, true),
        (-5, 3, false),
        (0, 0, true),
        (-3, -4, false),
    ];
    assert_perimeter(&rt, &line, 10, Cap::Butt, &butt);
    assert_perimeter(&rt, &line, 9, Cap::Butt, &[(11, 23, false), (12, 23, true)]);
    assert_perimeter(
        &rt,
        &line,
        10,
        Cap::Round,
        &[(-3, -4, true), (-4, -4, false), (33, 44, true)],
    );
    assert_perimeter(
        &rt,
        &line,
        10,
        Cap::Square,
        &[(-3, -4, true), (-7, -1, true), (-8, -1, false)],
    );
    let around = Bounds {
        l: -10,
        t: -10,
        r: 40,
        b: 50,
    };
    assert_eq!(rt; line.bounds(10), Some(around));
    // the two ends in one point: a dot
    let dot = Shape::Line {
        x1: 7,
        y1: 7,
        x2: 7,
        y2: 7,
    };
    assert_perimeter(&rt, &dot, 4, Cap::Butt, &[(7, 7, false)]);
    assert_perimeter(
        &rt,
        &dot,
        4,
        Cap::Round,
        &[(9, 7, true), (10, 7, false), (9, 8, false)],
    );
    assert_perimeter(&rt, &dot, 4, Cap::Square, &[(9, 9, true), (9, 10, false)]);
    let point = Bounds {
        l: 7,
        t: 7,
        r: 7,
        b: 7,
    };
    assert_eq!(rt; dot.bounds(0), Some(point));
}

// A line and a polyline of width 20 px, from 20 to 60 px across.
#[test]
fn caps_of_a_line_and_a_polyline(rt: HostRuntime) -> Result<(), Fail> {
    let places = [(1280, 3200), (3840, 3200)];
    let polyline = Shape::Polyline(subpath(&rt, rt.alloc(), &places, false)?);
    let line = Shape::Line {
        x1: 1280,
        y1: 3200,
        x2: 3840,
        y2: 3200,
    };
    let butt = [
        (4480, 3200, false),
        (4480, 3840, false),
        (3840, 3840, true),
        (3840, 3841, false),
    ];
    let round = [
        (4480, 3200, true),
        (4480, 3840, false),
        (3840, 3840, true),
        (4481, 3200, false),
    ];
    let square = [
        (4480, 3200, true),
        (4480, 3840, true),
        (3840, 3840, true),
        (4481, 3840, false),
    ];
    for (cap, cases) in [
        (Cap::Butt, butt),
        (Cap::Round, round),
        (Cap::Square, square),
    ] {
        assert_perimeter(&rt, &polyline, 1280, cap, &cases);
        assert_perimeter(&rt, &line, 1280, cap, &cases);
    }
    assert_eq!(rt; polyline.vertices(), 2);
    assert_near(&rt, &polyline);
    Ok(())
}

#[test]
fn star_under_both_rules(rt: HostRuntime) -> Result<(), Fail> {
    let places = [
        (3200, 0),
        (5120, 6400),
        (0, 2240),
        (6400, 2240),
        (1280, 6400),
    ];
    let star = Shape::Polygon(subpath(&rt, rt.alloc(), &places, true)?);
    assert_interior(
        &rt,
        &star,
        FillRule::NonZero,
        &[(3200, 3200, true), (3200, 640, true)],
    );
    assert_interior(
        &rt,
        &star,
        FillRule::EvenOdd,
        &[(3200, 3200, false), (3200, 640, true)],
    );
    assert_near(&rt, &star);
    assert_eq!(rt; star.vertices(), 5);
    // one of its sides goes across at the height 2240
    assert_perimeter(&rt, &star, 0, Cap::Butt, &[(3200, 2240, false)]);
    assert_perimeter(
        &rt,
        &star,
        128,
        Cap::Butt,
        &[(3200, 2240, true), (3200, 2304, true), (3200, 2305, false)],
    );
    assert_perimeter(
        &rt,
        &star,
        127,
        Cap::Butt,
        &[(3200, 2303, true), (3200, 2304, false)],
    );
    let around = Bounds {
        l: -128,
        t: -128,
        r: 6528,
        b: 6528,
    };
    assert_eq!(rt; star.bounds(128), Some(around));
    Ok(())
}

// A closed square, and in it an open one that goes the same way round.
#[test]
fn path_of_two_subpaths(rt: HostRuntime) -> Result<(), Fail> {
    let places = [
        (0, 0),
        (40, 0),
        (40, 40),
        (0, 40),
        (10, 10),
        (30, 10),
        (30, 30),
        (10, 30),
    ];
    let path = Shape::Path(closed_and_open(&rt, rt.alloc(), &places, 4)?);
    assert_interior(
        &rt,
        &path,
        FillRule::NonZero,
        &[(20, 20, true), (5, 5, true), (40, 5, false)],
    );
    assert_interior(
        &rt,
        &path,
        FillRule::EvenOdd,
        &[(20, 20, false), (5, 5, true), (40, 5, false)],
    );
    let lines = [
        (0, 20, true),
        (-2, 20, true),
        (-3, 20, false),
        (30, 20, true),
        (10, 20, false),
        (20, 20, false),
    ];
    assert_perimeter(&rt, &path, 4, Cap::Butt, &lines);
    assert_eq!(rt; path.vertices(), 8);
    let around = Bounds {
        l: -1,
        t: -1,
        r: 41,
        b: 41,
    };
    assert_eq!(rt; path.bounds(1), Some(around));
    Ok(())
}

const BOXES: [FineBox; 3] = [
    FineBox {
        x: 0,
        y: 0,
        w: 10,
        h: 10,
    },
    FineBox {
        x: 5,
        y: 5,
        w: 10,
        h: 10,
    },
    FineBox {
        x: 20,
        y: 0,
        w: 0,
        h: 10,
    },
];

fn is_place(z: i64) -> bool
    ensures { IsTrue result → IsPlace z }
{
    z.unsigned_abs() <= 1 << 26
}

fn is_length(z: i64) -> bool
    ensures { IsTrue result → IsLength z }
{
    0 <= z && z <= 1 << 26
}

fn has_place(b: FineBox) -> bool
    ensures { IsTrue result → (IsPlace b.x × IsPlace b.y) }
{
    is_place(b.x) && is_place(b.y)
}

fn has_sides(b: FineBox) -> bool
    ensures { IsTrue result → (IsLength b.w × IsLength b.h) }
{
    is_length(b.w) && is_length(b.h)
}

fn is_measured(b: FineBox) -> bool
    ensures { IsTrue result → IsBoxMeasured b }
{
    has_place(b) && has_sides(b)
}

fn are_measured(boxes: &[FineBox]) -> bool
    ensures { IsTrue result → All IsBoxMeasured boxes.now }
{
    boxes.iter().all(|b| is_measured(*b))
}

#[test]
fn boxes_of_a_text(rt: HostRuntime) -> Result<(), Fail> {
    let list = Vec::from_array(rt.alloc(), BOXES)?;
    assert!(rt; are_measured(&list));
    let boxes = Shape::Boxes(FineBoxes(list));
    let cases = [
        (0, 0, true),
        (9, 9, true),
        (10, 10, true),
        (14, 14, true),
        (15, 15, false),
        (10, 4, false),
        (20, 5, false),
        (-1, 0, false),
    ];
    assert_interior(&rt, &boxes, FillRule::NonZero, &cases);
    assert_perimeter(&rt, &boxes, 10, Cap::Round, &[(0, 0, false), (5, 5, false)]);
    assert_near(&rt, &boxes);
    assert_eq!(rt; boxes.vertices(), 6);
    let around = Bounds {
        l: -1,
        t: -1,
        r: 21,
        b: 16,
    };
    assert_eq!(rt; boxes.bounds(1), Some(around));
    let copied = boxes.copy()?;
    assert_interior(&rt, &copied, FillRule::NonZero, &cases);
    assert_eq!(rt; copied.vertices(), 6);
    Ok(())
}

// The copy of a shape has just these fields, by name.
fn assert_copied(rt: &impl Abort, alloc: Global, shape: &Shape, fields: &str) -> Result<(), Fail> {
    let copied = format!(in alloc; "{:?}", shape.copy()?)?;
    assert_eq!(rt; copied.as_str(), fields);
    Ok(())
}

#[test]
fn copies(rt: HostRuntime) -> Result<(), Fail> {
    let alloc = rt.alloc();
    let places = [(0, 0), (9, 2), (4, 7)];
    let path = Shape::Path(closed_and_open(&rt, alloc, &places, 2)?);
    let polygon = Shape::Polygon(subpath(&rt, alloc, &places, true)?);
    let polyline = Shape::Polyline(subpath(&rt, alloc, &places, false)?);
    let line = Shape::Line {
        x1: 9,
        y1: 1,
        x2: 2,
        y2: 5,
    };
    let circle = Shape::Circle { cx: 1, cy: 2, r: 3 };
    let ellipse = Shape::Ellipse {
        cx: 1,
        cy: 2,
        rx: 3,
        ry: 4,
    };
    let boxes = Shape::Boxes(FineBoxes(Vec::from_array(alloc, BOXES)?));
    for (shape, fields) in [
        (
            &path,
            "Path(Poly { points: [Point { x: 0, y: 0 }, Point { x: 9, y: 2 }, Point { x: 4, y: 7 }], subs: [Sub { first: 0, count: 2, closed: true }, Sub { first: 2, count: 1, closed: false }], bounds: Some(Bounds { l: 0, t: 0, r: 9, b: 7 }) })",
        ),
        (
            &polygon,
            "Polygon(Poly { points: [Point { x: 0, y: 0 }, Point { x: 9, y: 2 }, Point { x: 4, y: 7 }], subs: [Sub { first: 0, count: 3, closed: true }], bounds: Some(Bounds { l: 0, t: 0, r: 9, b: 7 }) })",
        ),
        (
            &polyline,
            "Polyline(Poly { points: [Point { x: 0, y: 0 }, Point { x: 9, y: 2 }, Point { x: 4, y: 7 }], subs: [Sub { first: 0, count: 3, closed: false }], bounds: Some(Bounds { l: 0, t: 0, r: 9, b: 7 }) })",
        ),
        (&line, "Line { x1: 9, y1: 1, x2: 2, y2: 5 }"),
        (
            &rect(1, 2, 3, 4, 5, 6),
            "Rect { x: 1, y: 2, w: 3, h: 4, rx: 5, ry: 6 }",
        ),
        (&circle, "Circle { cx: 1, cy: 2, r: 3 }"),
        (&ellipse, "Ellipse { cx: 1, cy: 2, rx: 3, ry: 4 }"),
        (
            &boxes,
            "Boxes(FineBoxes([FineBox { x: 0, y: 0, w: 10, h: 10 }, FineBox { x: 5, y: 5, w: 10, h: 10 }, FineBox { x: 20, y: 0, w: 0, h: 10 }]))",
        ),
    ] {
        assert_copied(&rt, alloc, shape, fields)?;
    }
    Ok(())
}
