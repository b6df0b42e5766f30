ghost use Rattle.std.specs.Prelude.{◌≡◌, ◌↔◌, ◌≤◌, ◌^◌, IsTrue, unsigned_abs};
ghost use Rattle.std.specs.List.{All};
ghost use Rattle.poly_shapes.specs.Segments.{IsPlaced};
ghost use Rattle.poly_shapes.specs.Outline.{AreTiled};

use super::*;
use std::alloc::Global;
use std::process::Abort;
use std::test::Fail;

// Whether a coordinate is within 2^26.
fn is_within(c: i64) -> bool
    ensures { IsTrue result ↔ (unsigned_abs c ≤ 2 ^ 26) }
{
    c.unsigned_abs() <= 1 << 26
}

fn is_placed(p: Point) -> bool
    ensures { IsTrue result ↔ IsPlaced p }
{
    is_within(p.x) && is_within(p.y)
}

fn are_placed(points: &[Point]) -> bool
    ensures { IsTrue result → All IsPlaced points.now }
{
    points.iter().all(|p| is_placed(*p))
}

// Whether the subpaths tile the places from here to there.
fn are_tiled(here: usize, there: usize, subs: &[Sub]) -> bool
    requires { here ≤ there }
    ensures { IsTrue result → AreTiled here there subs.now }
{
    match subs {
        [] => here == there,
        [sub, rest @ ..] => {
            let count = sub.count as usize;
            sub.first as usize == here
                && count <= there - here
                && are_tiled(here + count, there, rest)
        }
    }
}

fn point(place: (i16, i16)) -> Point {
    let (x, y) = place;
    Point {
        x: i64::from(x),
        y: i64::from(y),
    }
}

// A shape of the points with these coordinates.
fn shape(
    rt: &impl Abort,
    alloc: Global,
    places: &[(i16, i16)],
    subs: &[Sub],
) -> Result<Poly, Fail> {
    let mut points = Vec::new(alloc);
    for place in places {
        points.push(point(*place))?;
    }
    assert!(rt; points.len() < 100);
    assert!(rt; are_placed(&points));
    assert!(rt; are_tiled(0, points.len(), subs));
    Ok(Poly::new(alloc, &points, subs)?)
}

// A shape with one subpath.
fn subpath(
    rt: &impl Abort,
    alloc: Global,
    places: &[(i16, i16)],
    closed: bool,
) -> Result<Poly, Fail> {
    assert!(rt; places.len() < 100);
    let count = places.len() as u32;
    let sub = Sub {
        first: 0,
        count,
        closed,
    };
    shape(rt, alloc, places, &[sub])
}

// A point and whether it is held.
type Case = (i16, i16, bool);

fn assert_fills(rt: &impl Abort, poly: &Poly, rule: FillRule, cases: &[Case]) {
    for &(x, y, held) in cases {
        let (x, y) = (i128::from(x), i128::from(y));
        assert_eq!(rt; poly.fills(rule, x, y), held, "{x} {y}");
        assert_eq!(rt; poly.is_point_in_fill(rule, x, y), held, "{x} {y}");
    }
}

fn assert_strokes(rt: &impl Abort, poly: &Poly, width: u16, cap: Cap, cases: &[Case]) {
    let width = i64::from(width);
    for &(x, y, held) in cases {
        let (x, y) = (i128::from(x), i128::from(y));
        assert_eq!(rt; poly.strokes(width, cap, x, y), held, "{x} {y}");
        assert_eq!(rt; poly.is_point_in_stroke(width, cap, x, y), held, "{x} {y}");
    }
}

// The stroke of the open subpath between two points, and that of the line between them, with a cap.
fn assert_line(
    rt: &impl Abort,
    alloc: Global,
    ends: [(i16, i16); 2],
    width: u16,
    cap: Cap,
    cases: &[Case],
) -> Result<(), Fail> {
    let poly = subpath(rt, alloc, &ends, false)?;
    assert_strokes(rt, &poly, width, cap, cases);
    let (from, to) = (point(ends[0]), point(ends[1]));
    assert!(rt; is_placed(from));
    assert!(rt; is_placed(to));
    for &(x, y, held) in cases {
        let (x, y) = (i128::from(x), i128::from(y));
        let stroked = line_stroke_holds(from, to, i64::from(width), cap, x, y);
        assert_eq!(rt; stroked, held, "{x} {y}");
    }
    Ok(())
}

const STAR: [(i16, i16); 5] = [
    (3200, 0),
    (5120, 6400),
    (0, 2240),
    (6400, 2240),
    (1280, 6400),
];

const SQUARE: [(i16, i16); 4] = [(0, 0), (10, 0), (10, 10), (0, 10)];

#[test]
fn fills_by_both_rules(rt: HostRuntime) -> Result<(), Fail> {
    // its middle is gone round twice, its arms once
    let star = subpath(&rt, rt.alloc(), &STAR, true)?;
    for (y, turns, crossed) in [(3200, 2, 2), (640, 1, 1)] {
        assert_eq!(rt; star.winding(3200, y), turns);
        assert_eq!(rt; star.crossings(3200, y), crossed);
    }
    let wound = [(3200, 3200, true), (3200, 640, true)];
    assert_fills(&rt, &star, FillRule::NonZero, &wound);
    let odd = [(3200, 3200, false), (3200, 640, true)];
    assert_fills(&rt, &star, FillRule::EvenOdd, &odd);

    // an open subpath is closed for the fill
    let half_open = [
        (0, 0, true),
        (5, 0, true),
        (0, 9, true),
        (9, 9, true),
        (10, 0, false),
        (10, 5, false),
        (0, 10, false),
        (10, 10, false),
        (-1, 5, false),
        (5, -1, false),
    ];
    // the right angle of a triangle is in, its other corners and its long side are out
    let sharp = [
        (0, 0, true),
        (4, 0, true),
        (0, 4, true),
        (3, 4, true),
        (4, 4, false),
        (8, 0, false),
        (0, 8, false),
    ];
    // the right lobe of the bow is gone round the other way
    let lobes = [(1, 2, true), (3, 2, true), (2, 1, false), (2, 3, false)];
    for rule in [FillRule::NonZero, FillRule::EvenOdd] {
        for closed in [true, false] {
            let square = subpath(&rt, rt.alloc(), &SQUARE, closed)?;
            assert_fills(&rt, &square, rule, &half_open);
        }
        let triangle = subpath(&rt, rt.alloc(), &[(0, 0), (8, 0), (0, 8)], true)?;
        assert_fills(&rt, &triangle, rule, &sharp);
        let turned = subpath(&rt, rt.alloc(), &[(0, 8), (8, 0), (0, 0)], true)?;
        assert_eq!(rt; (turned.winding(1, 1), turned.crossings(1, 1)), (-1, 1));
        assert_fills(&rt, &turned, rule, &sharp);
        let bow = subpath(&rt, rt.alloc(), &[(0, 0), (4, 4), (4, 0), (0, 4)], true)?;
        assert_eq!(rt; (bow.winding(1, 2), bow.crossings(1, 2)), (1, 3));
        assert_eq!(rt; bow.winding(3, 2), -1);
        assert_fills(&rt, &bow, rule, &lobes);
    }
    Ok(())
}

// A closed subpath with an open one in it, and a closed one without points between them; and no subpath at all.
#[test]
fn nested_subpaths_and_none(rt: HostRuntime) -> Result<(), Fail> {
    let subs = [
        Sub {
            first: 0,
            count: 4,
            closed: true,
        },
        Sub {
            first: 4,
            count: 0,
            closed: true,
        },
        Sub {
            first: 4,
            count: 4,
            closed: false,
        },
    ];
    let places = [
        (0, 0),
        (30, 0),
        (30, 30),
        (0, 30),
        (10, 10),
        (20, 10),
        (20, 20),
        (10, 20),
    ];
    let given = shape(&rt, rt.alloc(), &places, &subs)?;
    let copied = given.copy()?;
    let around = Bounds {
        l: 0,
        t: 0,
        r: 30,
        b: 30,
    };
    for nested in [&given, &copied] {
        assert_eq!(rt; nested.winding(15, 15), 2);
        let wound = [(5, 5, true), (15, 15, true)];
        assert_fills(&rt, nested, FillRule::NonZero, &wound);
        let odd = [(5, 5, true), (15, 15, false)];
        assert_fills(&rt, nested, FillRule::EvenOdd, &odd);
        assert_eq!(rt; nested.subs(), subs.as_slice());
        for (held, place) in nested.points().iter().zip(&places) {
            assert_eq!(rt; *held, point(*place));
        }
        assert_eq!(rt; nested.points().len(), 8);
        assert_eq!(rt; nested.bounds(), Some(around));
    }
    let nothing = shape(&rt, rt.alloc(), &[], &[])?;
    assert_fills(&rt, &nothing, FillRule::NonZero, &[(0, 0, false)]);
    assert_strokes(&rt, &nothing, 10, Cap::Round, &[(0, 0, false)]);
    assert_eq!(rt; nothing.bounds(), None);
    let refused = format!(in rt.alloc(); "{OutOfMemory}")?;
    assert_eq!(rt; refused.as_str(), "out of memory");
    Ok(())
}

// A level line, one whose length is 50, so that a point 4 left and 3 down of it is 5 away, and a dot.
#[test]
fn caps_of_lines(rt: HostRuntime) -> Result<(), Fail> {
    let level = [(1280, 3200), (3840, 3200)];
    let butt = [
        (4480, 3200, false),
        (4480, 3840, false),
        (3840, 3840, true),
        (3840, 3841, false),
        (640, 3200, false),
    ];
    let round = [
        (4480, 3200, true),
        (4480, 3840, false),
        (3840, 3840, true),
        (4481, 3200, false),
        (640, 3200, true),
        (639, 3200, false),
    ];
    let square = [
        (4480, 3200, true),
        (4480, 3840, true),
        (3840, 3840, true),
        (4481, 3200, false),
        (640, 3840, true),
        (640, 2560, true),
        (639, 3200, false),
    ];
    assert_line(&rt, rt.alloc(), level, 1280, Cap::Butt, &butt)?;
    assert_line(&rt, rt.alloc(), level, 1280, Cap::Round, &round)?;
    assert_line(&rt, rt.alloc(), level, 1280, Cap::Square, &square)?;

    let slanted = [(0, 0), (30, 40)];
    let butt = [
        (11, 23, true),
        (10, 23, false),
        (26, 43, true),
        (27, 44, false),
        (33, 44, false),
        (-3, -4, false),
    ];
    let round = [
        (11, 23, true),
        (10, 23, false),
        (26, 43, true),
        (27, 44, true),
        (33, 44, true),
        (29, 47, false),
        (-3, -4, true),
        (-7, -1, false),
    ];
    let square = [
        (11, 23, true),
        (10, 23, false),
        (26, 43, true),
        (27, 44, true),
        (33, 44, true),
        (29, 47, true),
        (34, 45, false),
        (-3, -4, true),
        (-4, -5, false),
        (-7, -1, true),
    ];
    assert_line(&rt, rt.alloc(), slanted, 10, Cap::Butt, &butt)?;
    assert_line(&rt, rt.alloc(), slanted, 10, Cap::Round, &round)?;
    assert_line(&rt, rt.alloc(), slanted, 10, Cap::Square, &square)?;
    assert_line(&rt, rt.alloc(), slanted, 9, Cap::Butt, &[(11, 23, false)])?;

    // without a width there is no stroke
    assert_line(&rt, rt.alloc(), slanted, 0, Cap::Round, &[(15, 20, false)])?;

    let dot = [(5, 5), (5, 5)];
    let round = [(10, 5, true), (11, 5, false), (8, 9, true), (9, 9, false)];
    let square = [
        (10, 10, true),
        (11, 10, false),
        (0, 0, true),
        (0, -1, false),
    ];
    assert_line(&rt, rt.alloc(), dot, 10, Cap::Butt, &[(5, 5, false)])?;
    assert_line(&rt, rt.alloc(), dot, 10, Cap::Round, &round)?;
    assert_line(&rt, rt.alloc(), dot, 10, Cap::Square, &square)?;
    Ok(())
}

#[test]
fn joins_of_open_and_closed_subpaths(rt: HostRuntime) -> Result<(), Fail> {
    // a line of width 128 goes across at the height 2240
    let star = subpath(&rt, rt.alloc(), &STAR, true)?;
    let across = [(3200, 2240, true), (3200, 2304, true), (3200, 2368, false)];
    assert_strokes(&rt, &star, 128, Cap::Butt, &across);

    // a closed subpath has no ends
    let closed = subpath(&rt, rt.alloc(), &SQUARE, true)?;
    let all_round = [
        (11, -1, true),
        (11, -2, false),
        (-1, -1, true),
        (-1, 11, true),
        (0, 5, true),
        (5, 5, false),
        (-2, -2, false),
    ];
    for cap in [Cap::Butt, Cap::Square] {
        assert_strokes(&rt, &closed, 4, cap, &all_round);
    }

    let open = subpath(&rt, rt.alloc(), &SQUARE, false)?;
    let three_sides = [
        (11, -1, true),
        (11, 11, true),
        (-1, -1, false),
        (-1, 11, false),
        (0, 5, false),
    ];
    assert_strokes(&rt, &open, 4, Cap::Butt, &three_sides);
    let ends = [(-2, -2, true), (-2, 12, true)];
    assert_strokes(&rt, &open, 4, Cap::Square, &ends);

    // segments of length 0 are dropped: those beside them have their join
    let places = [(0, 0), (0, 0), (10, 0), (10, 0), (10, 10)];
    let doubled = subpath(&rt, rt.alloc(), &places, false)?;
    let joined = [(11, -1, true), (11, -2, false), (-1, 0, false)];
    assert_strokes(&rt, &doubled, 4, Cap::Butt, &joined);
    let ends = [(-2, 2, true), (12, 12, true)];
    assert_strokes(&rt, &doubled, 4, Cap::Square, &ends);

    // one point has no segment, and a closed subpath of two points that are one is a dot
    let lone = subpath(&rt, rt.alloc(), &[(5, 5)], true)?;
    assert_strokes(&rt, &lone, 10, Cap::Round, &[(5, 5, false)]);
    let dot = subpath(&rt, rt.alloc(), &[(5, 5), (5, 5)], true)?;
    assert_strokes(&rt, &dot, 10, Cap::Butt, &[(5, 5, false)]);
    let disc = [(10, 5, true), (11, 5, false), (8, 9, true), (9, 9, false)];
    assert_strokes(&rt, &dot, 10, Cap::Round, &disc);
    Ok(())
}

const FAR: i128 = 5_000_000_000_000_000_000_000_000_000_000_000_000;

#[test]
fn points_far_off_and_bounds(rt: HostRuntime) -> Result<(), Fail> {
    let square = subpath(&rt, rt.alloc(), &SQUARE, true)?;
    let from = Point { x: 0, y: 0 };
    let to = Point { x: 10, y: 10 };
    for (x, y) in [(FAR, 5), (5, -FAR), (-FAR, FAR)] {
        assert!(rt; !square.is_point_in_fill(FillRule::NonZero, x, y));
        assert!(rt; !square.is_point_in_fill(FillRule::EvenOdd, x, y));
        assert!(rt; !square.is_point_in_stroke(67_108_864, Cap::Square, x, y));
        assert!(rt; !line_stroke_holds(from, to, 67_108_864, Cap::Square, x, y));
    }

    let corners = [Point { x: 3, y: -2 }, Point { x: -5, y: 7 }];
    let around = Bounds {
        l: -5,
        t: -2,
        r: 3,
        b: 7,
    };
    assert_eq!(rt; bounds_of(&corners), Some(around));
    assert_eq!(rt; bounds_of(&[]), None);
    let poly = subpath(&rt, rt.alloc(), &[(3, -2), (-5, 7), (0, 0)], false)?;
    assert_eq!(rt; poly.bounds(), Some(around));
    let further = Bounds {
        l: -5,
        t: -4,
        r: 9,
        b: 7,
    };
    let widened = around.widened_by(&[Point { x: 9, y: 0 }, Point { x: 0, y: -4 }]);
    assert_eq!(rt; widened, further);
    let moved = Bounds {
        l: -8,
        t: -5,
        r: 6,
        b: 10,
    };
    assert_eq!(rt; around.moved_out(3), moved);
    Ok(())
}
