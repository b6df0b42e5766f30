ghost use Rattle.std.specs.Prelude.{◌≡◌, ◌≢◌, ℕ, ◌+◌, ◌≤◌, ◌<◌, IsTrue, pos, OnOk, ◌≤ℤ◌};
ghost use Rattle.spatial_index.specs.Cells.{IsEmptyOrInside, line_of};
ghost use Rattle.spatial_index.specs.Contents.{StandsBy, StandsAlike};

use super::*;
use fractions::{Blank, Brand};
use std::process::Abort;
use std::test::Fail;

const fn rect(l: i64, t: i64, r: i64, b: i64) -> Rect {
    Rect { l, t, r, b }
}

// Bounds, and the level, the numbers and the count of their cells.
#[derive(Drop)]
struct Row(Rect, u8, [u32; 4], u8);

fn check_plans(rt: &impl Abort, grid: &Grid, rows: &[Row]) {
    for row in rows {
        let bounds = row.0;
        assert!(rt; 0 <= bounds.l);
        assert!(rt; 0 <= bounds.t);
        assert!(rt; bounds.r <= grid.width + 1);
        assert!(rt; bounds.b <= grid.height + 1);
        let plan = grid.plan(&bounds);
        assert_eq!(rt; plan.level, row.1, "the level of {:?}", bounds);
        assert!(rt;
            plan.cells == row.2,
            "the cells of {:?}: {:?}",
            bounds,
            plan.cells
        );
        assert_eq!(rt; plan.count, row.3, "the count of {:?}", bounds);
    }
}

fn check_empty_plans(rt: &impl Abort, grid: &Grid, empty: &[Rect]) {
    for bounds in empty {
        assert!(rt; bounds.is_empty());
        let plan = grid.plan(bounds);
        assert_eq!(rt; plan.level, 0, "the level of {:?}", *bounds);
        assert!(rt; plan.cells == [0; 4], "the cells of {:?}", *bounds);
        assert_eq!(rt; plan.count, 0, "the count of {:?}", *bounds);
    }
}

// Five columns and three rows in level 0, three and two in level 1, two and one in level 2, and one of each above.
#[test]
fn plans_at_the_edges_of_cells(rt: HostRuntime) -> Result<(), Fail> {
    let grid = Grid::new(rt.alloc(), 20000, 9000)?;
    let rows = [
        Row(rect(0, 0, 1, 1), 0, [0, 0, 0, 0], 1),
        Row(rect(0, 0, 4096, 4096), 0, [0, 0, 0, 0], 1),
        Row(rect(1, 0, 4097, 4096), 0, [0, 1, 0, 0], 2),
        Row(rect(0, 1, 4096, 4097), 0, [0, 5, 0, 0], 2),
        Row(rect(1, 1, 4097, 4097), 0, [0, 1, 5, 6], 4),
        Row(rect(4095, 4095, 4096, 4096), 0, [0, 0, 0, 0], 1),
        Row(rect(4095, 4095, 4097, 4096), 0, [0, 1, 0, 0], 2),
        Row(rect(4096, 4096, 4097, 4097), 0, [6, 0, 0, 0], 1),
        Row(rect(20000, 9000, 20001, 9001), 0, [14, 0, 0, 0], 1),
        Row(rect(16383, 8191, 16385, 8193), 0, [8, 9, 13, 14], 4),
        Row(rect(0, 0, 4097, 1), 1, [0, 0, 0, 0], 1),
        Row(rect(0, 0, 1, 4097), 1, [0, 0, 0, 0], 1),
        Row(rect(8191, 0, 16383, 8192), 1, [0, 1, 0, 0], 2),
        Row(rect(8191, 809, 16383, 9001), 1, [0, 1, 3, 4], 4),
        Row(rect(8191, 0, 16384, 8192), 2, [0, 0, 0, 0], 1),
        Row(rect(3617, 0, 20001, 9001), 2, [0, 1, 0, 0], 2),
        Row(rect(0, 0, 20001, 9001), 3, [0, 0, 0, 0], 1),
    ];
    check_plans(&rt, &grid, &rows);
    let empty = [
        NOWHERE,
        rect(5, 5, 5, 9),
        rect(9, 0, 3, 9000),
        rect(-7, -7, 90000, -8),
    ];
    check_empty_plans(&rt, &grid, &empty);
    Ok(())
}

// 257 columns and rows in level 0.
#[test]
fn plans_in_each_level(rt: HostRuntime) -> Result<(), Fail> {
    let grid = Grid::new(rt.alloc(), 1048576, 1048576)?;
    let rows = [
        Row(rect(0, 0, 4096, 1), 0, [0, 0, 0, 0], 1),
        Row(rect(0, 0, 1, 4097), 1, [0, 0, 0, 0], 1),
        Row(rect(0, 0, 8192, 1), 1, [0, 0, 0, 0], 1),
        Row(rect(0, 0, 8193, 1), 2, [0, 0, 0, 0], 1),
        Row(rect(0, 0, 16385, 1), 3, [0, 0, 0, 0], 1),
        Row(rect(0, 0, 1, 32769), 4, [0, 0, 0, 0], 1),
        Row(rect(0, 0, 65537, 1), 5, [0, 0, 0, 0], 1),
        Row(rect(0, 0, 131073, 1), 6, [0, 0, 0, 0], 1),
        Row(rect(0, 0, 262145, 1), 7, [0, 0, 0, 0], 1),
        Row(rect(0, 0, 524289, 1), 8, [0, 0, 0, 0], 1),
        Row(rect(0, 0, 1048576, 1048576), 8, [0, 0, 0, 0], 1),
        Row(rect(1, 1, 1048577, 1048577), 8, [0, 1, 2, 3], 4),
        Row(rect(0, 0, 1048577, 1), 9, [0, 0, 0, 0], 1),
        Row(
            rect(1048576, 1048576, 1048577, 1048577),
            0,
            [66048, 0, 0, 0],
            1,
        ),
        Row(
            rect(1048575, 1048575, 1048577, 1048577),
            0,
            [65790, 65791, 66047, 66048],
            4,
        ),
    ];
    check_plans(&rt, &grid, &rows);
    let smallest = Grid::new(rt.alloc(), 1, 1)?;
    check_plans(&rt, &smallest, &[Row(rect(0, 0, 2, 2), 0, [0, 0, 0, 0], 1)]);
    Ok(())
}

// A point, a level, and the items of the cell that holds the point, with their number.
#[derive(Drop)]
struct Seen(i64, i64, u8, [u32; 2], usize);

fn check_visits<L: Ledger>(rt: &impl Abort, grid: &Grid, rows: &[Seen], steps: &mut Steps<L>) {
    for row in rows {
        assert!(rt; 0 <= row.0);
        assert!(rt; row.0 <= grid.width);
        assert!(rt; 0 <= row.1);
        assert!(rt; row.1 <= grid.height);
        assert!(rt; row.2 <= 9);
        assert!(rt; row.4 <= 2);
        let items = grid.visit(row.0, row.1, row.2, steps);
        assert!(rt;
            items == &row.3[..row.4],
            "the items at {}, {} in level {}: {:?}",
            row.0,
            row.1,
            row.2,
            items
        );
    }
}

// Reserves and applies one change.
fn change_one<L: Ledger>(
    grid: &mut Grid,
    item: u32,
    old: Rect,
    new: Rect,
    steps: &mut Steps<L>,
) -> Result<(), OutOfMemory>
    requires old_bounds { IsEmptyOrInside grid.old.region old }
    requires new_bounds { IsEmptyOrInside grid.old.region new }
    requires there { StandsBy grid.old item old }
    ensures region { grid.new.region ≡ grid.old.region }
    ensures moved { OnOk result (StandsBy grid.new item new) }
    ensures others { (other : ℕ) → item ≢ other → StandsAlike grid.old grid.new other }
    ensures cost { OnOk result (steps.new ≡ steps.old + 1) }
{
    let changes = [Change { item, old, new }];
    grid.reserve(&changes)?;
    grid.apply(&changes, steps);
    Ok(())
}

// Round the corner where four cells of level 0 meet.
const CORNER: Rect = Rect {
    l: 4000,
    t: 4000,
    r: 5000,
    b: 5000,
};

// Other bounds that meet these four cells.
const SAME_CELLS: Rect = Rect {
    l: 4095,
    t: 4095,
    r: 4097,
    b: 8000,
};

// A point of the second cell of level 0.
const POINT: Rect = Rect {
    l: 4096,
    t: 0,
    r: 4097,
    b: 1,
};

// As wide as the region, so that it needs level 3.
const WIDE: Rect = Rect {
    l: 0,
    t: 0,
    r: 20001,
    b: 1,
};

fn come_move_and_go<L: Ledger>(
    rt: &impl Abort,
    alloc: Global,
    blank: Blank,
) -> Result<(), OutOfMemory>
    requires name { blank.name ≡ L.name }
    requires parts { blank.parts ≡ L.parts }
    requires some_parts { 0 < blank.parts }
{
    let mut steps = Steps::<L>::new(blank);
    let mut grid = Grid::new(alloc, 20000, 9000)?;
    change_one(&mut grid, 7, NOWHERE, CORNER, &mut steps)?;
    let in_four_cells = [
        Seen(4000, 4000, 0, [7, 0], 1),
        Seen(8191, 4095, 0, [7, 0], 1),
        Seen(0, 4096, 0, [7, 0], 1),
        Seen(8191, 8191, 0, [7, 0], 1),
        Seen(8192, 4000, 0, [0, 0], 0),
        Seen(4000, 8192, 0, [0, 0], 0),
        Seen(4000, 4000, 1, [0, 0], 0),
    ];
    check_visits(rt, &grid, &in_four_cells, &mut steps);
    change_one(&mut grid, 8, NOWHERE, POINT, &mut steps)?;
    change_one(&mut grid, 7, CORNER, SAME_CELLS, &mut steps)?;
    check_visits(rt, &grid, &[Seen(4096, 0, 0, [7, 8], 2)], &mut steps);
    assert_eq!(rt; grid.places.place(8, 1), 1);
    change_one(&mut grid, 7, SAME_CELLS, WIDE, &mut steps)?;
    assert_eq!(rt; grid.places.place(8, 1), 0);
    let above = [
        Seen(4096, 0, 0, [8, 0], 1),
        Seen(0, 0, 0, [0, 0], 0),
        Seen(20000, 9000, 3, [7, 0], 1),
    ];
    check_visits(rt, &grid, &above, &mut steps);
    change_one(&mut grid, 7, WIDE, NOWHERE, &mut steps)?;
    let gone = [Seen(20000, 9000, 3, [0, 0], 0), Seen(4096, 0, 0, [8, 0], 1)];
    check_visits(rt, &grid, &gone, &mut steps);
    Ok(())
}

#[test]
fn items_come_move_and_go(rt: HostRuntime) -> Result<(), Fail> {
    come_move_and_go::<Brand>(&rt, rt.alloc(), Blank::new(1))?;
    Ok(())
}

// In the first and in the last cell of level 0.
const FIRST: Rect = Rect {
    l: 0,
    t: 0,
    r: 100,
    b: 100,
};

const LAST: Rect = Rect {
    l: 19000,
    t: 8200,
    r: 20001,
    b: 9001,
};

// One item has a number for which no places are kept.
fn rebuild_and_change<L: Ledger>(
    rt: &impl Abort,
    alloc: Global,
    blank: Blank,
) -> Result<(), OutOfMemory>
    requires name { blank.name ≡ L.name }
    requires parts { blank.parts ≡ L.parts }
    requires some_parts { 0 < blank.parts }
{
    let mut steps = Steps::<L>::new(blank);
    let items = [
        Change {
            item: u32::MAX,
            old: LAST,
            new: FIRST,
        },
        Change {
            item: 2,
            old: NOWHERE,
            new: FIRST,
        },
    ];
    let mut grid = Grid::rebuilt(alloc, 20000, 9000, &items)?;
    let first = [
        Seen(0, 0, 0, [u32::MAX, 2], 2),
        Seen(20000, 9000, 0, [0, 0], 0),
    ];
    check_visits(rt, &grid, &first, &mut steps);
    let changes = [
        Change {
            item: u32::MAX,
            old: FIRST,
            new: LAST,
        },
        Change {
            item: 2,
            old: FIRST,
            new: NOWHERE,
        },
        Change {
            item: 3,
            old: NOWHERE,
            new: LAST,
        },
    ];
    grid.reserve(&changes)?;
    grid.apply(&changes, &mut steps);
    let last = [
        Seen(0, 0, 0, [0, 0], 0),
        Seen(20000, 9000, 0, [u32::MAX, 3], 2),
    ];
    check_visits(rt, &grid, &last, &mut steps);
    Ok(())
}

#[test]
fn a_grid_is_rebuilt_and_changed(rt: HostRuntime) -> Result<(), Fail> {
    rebuild_and_change::<Brand>(&rt, rt.alloc(), Blank::new(1))?;
    Ok(())
}
