ghost use Rattle.std.specs.Prelude.{IsTrue};
ghost use Rattle.std.specs.List.{All};
ghost use Rattle.image_maps.specs.Area.{IsNumber};

use crate::{AreaKind, AreaShape, OutOfMemory};
use std::alloc::Global;
use std::process::Abort;

const FAR: i128 = 5_000_000_000_000_000_000_000_000_000_000_000_000;

// A point in fine units, and whether it is covered.
type Case = (i128, i128, bool);

fn are_small(numbers: &[i64]) -> bool
    ensures { IsTrue result → All IsNumber numbers.now }
{
    numbers.iter().all(|n| n.unsigned_abs() <= 1_048_576)
}

// An area of these numbers and its copy have so many corners and cover just the points that are marked.
fn assert_area(
    rt: &impl Abort,
    alloc: Global,
    kind: AreaKind,
    numbers: &[i64],
    corners: u32,
    cases: &[Case],
) -> Result<(), OutOfMemory> {
    assert!(rt; numbers.len() <= 16 && are_small(numbers));
    let given = AreaShape::of(alloc, kind, numbers)?;
    let copied = given.copy()?;
    for area in [&given, &copied] {
        assert_eq!(rt; area.vertices(), corners, "{kind:?}");
        for &(x, y, covered) in cases {
            assert!(rt; x.unsigned_abs() < 1 << 123 && y.unsigned_abs() < 1 << 123);
            assert_eq!(rt; area.covers(x, y), covered, "{kind:?} {x} {y}");
        }
    }
    Ok(())
}

// None to seven of the same numbers, and the point (3.25, 2), in units: the circle round (4, 4) with the radius 3 holds it, so
// does the rectangle from (4, 4) to (3, 0), whose ends stand in the wrong order, and so does the triangle (4, 4), (3, 0),
// (0, 3), which reaches from 1 to 3.5 at the height 2.
#[test]
fn every_count_of_numbers(rt: HostRuntime) -> Result<(), OutOfMemory> {
    let numbers = [4, 4, 3, 0, 0, 3, 1];
    for count in 0..8 {
        let given = &numbers[..count];
        let corners = if count < 6 { 0 } else { 3 };
        for (kind, from, corners) in [
            (AreaKind::Rect, 4, 0),
            (AreaKind::Circle, 3, 0),
            (AreaKind::Poly, 6, corners),
            (AreaKind::Default, 0, 0),
        ] {
            assert_area(
                &rt,
                rt.alloc(),
                kind,
                given,
                corners,
                &[(208, 128, from <= count)],
            )?;
        }
    }
    Ok(())
}

// Points on the edges, just inside, just outside and far off.
#[test]
fn points_of_each_kind(rt: HostRuntime) -> Result<(), OutOfMemory> {
    let alloc = rt.alloc();
    // from (4, 8) to (10, 20) units, both ends in the wrong order
    let rectangle = [
        (256, 512, true),
        (255, 512, false),
        (256, 511, false),
        (639, 1279, true),
        (640, 1279, false),
        (639, 1280, false),
        (FAR, 600, false),
        (300, -FAR, false),
    ];
    assert_area(&rt, alloc, AreaKind::Rect, &[10, 20, 4, 8], 0, &rectangle)?;
    // round (1920, 1920) with the radius 320 in fine units, where 192^2 + 256^2 = 320^2
    let circle = [
        (2240, 1920, true),
        (2241, 1920, false),
        (1728, 2176, true),
        (1727, 2176, false),
        (FAR, 1920, false),
        (1920, -FAR, false),
    ];
    assert_area(&rt, alloc, AreaKind::Circle, &[30, 30, 5], 0, &circle)?;
    // without a positive radius
    let centre = [(1920, 1920, false)];
    assert_area(&rt, alloc, AreaKind::Circle, &[30, 30, 0], 0, &centre)?;
    assert_area(&rt, alloc, AreaKind::Circle, &[30, 30, -5], 0, &centre)?;
    // (0, 0), (10, 0), (10, 10), in units, which reaches from 2 to 10 at the height 2
    let triangle = [
        (129, 128, true),
        (127, 128, false),
        (639, 128, true),
        (641, 128, false),
        (FAR, 128, false),
        (-FAR, 128, false),
        (320, FAR, false),
    ];
    assert_area(
        &rt,
        alloc,
        AreaKind::Poly,
        &[0, 0, 10, 0, 10, 10, 99],
        3,
        &triangle,
    )?;
    // a square that is gone round twice, so that the crossings are even inside
    let twice = [0, 0, 10, 0, 10, 10, 0, 10, 0, 0, 10, 0, 10, 10, 0, 10];
    assert_area(&rt, alloc, AreaKind::Poly, &twice, 8, &[(320, 320, false)])?;
    // the default area covers every point
    assert_area(&rt, alloc, AreaKind::Default, &[], 0, &[(FAR, -FAR, true)])
}
