ghost use Rattle.std.specs.Prelude.{◌≡◌, ◌<◌};

use super::*;
use box_tree::{Edit, Kind, Piece, PieceList};
use computed_style::Style;
use fractions::{Blank, Brand};
use std::alloc::Global;
use std::process::Abort;
use std::test::Fail;

// Boxes by l, t, w and h.
fn boxes_of(alloc: Global, sides: &[(i64, i64, i64, i64)]) -> Result<PieceList, Fail> {
    let mut pieces = Vec::new(alloc);
    for &(l, t, w, h) in sides {
        pieces.push(Piece {
            line: 0,
            l,
            t,
            w,
            h,
        })?;
    }
    Ok(PieceList(pieces))
}

// An add of a block at the end of the `at` children of its parent.
fn block(
    alloc: Global,
    parent: u32,
    at: u32,
    sides: &[(i64, i64, i64, i64)],
) -> Result<Edit, Fail> {
    Ok(Edit::Add {
        parent,
        at,
        kind: Kind::Block,
        boxes: boxes_of(alloc, sides)?,
        style: Style::new(alloc),
    })
}

// Compares the answers at a point: the wanted elements, and the first of them.
fn compare_at<L: Ledger>(
    rt: &impl Abort,
    engine: &Engine,
    room: &mut [u32],
    x: i64,
    y: i64,
    wanted: &[u32],
    steps: &mut Steps<L>,
) {
    assert!(rt; -100_000 < x && x < 100_000 && -100_000 < y && y < 100_000);
    assert!(rt; engine.page().item_count() as usize + 256 <= room.len());
    let ids = hit(engine, room, x, y, steps);
    assert_eq!(rt; ids, wanted, "{x} {y}");
    let id = top(engine, room, x, y, steps);
    assert_eq!(rt; id, wanted.first().copied(), "{x} {y}");
}

// Edits a new engine, and compares the answers at points, and the chains of elements, with those that are wanted, in a room
// that is no longer than it has to be and holds something else before.
fn compare<L: Ledger>(
    rt: &impl Abort,
    alloc: Global,
    edits: &[Edit],
    answers: &[(i64, i64, &[u32])],
    chains: &[(u32, &[u32])],
    blank: Blank,
) -> Result<(), Fail>
    requires name { blank.name ≡ L.name }
    requires parts { blank.parts ≡ L.parts }
    requires some_parts { 0 < blank.parts }
{
    let mut steps = Steps::<L>::new(blank);
    let mut engine = Engine::new(alloc, 81_920, 46_080)?;
    for edit in edits {
        assert!(rt; edit.in_range());
        assert!(rt; engine.edit(edit, &mut steps).is_ok(), "{edit:?}");
    }
    let length = engine.page().item_count() as usize + 256;
    let mut room = vec![in alloc; 7; length]?;
    for &(x, y, wanted) in answers {
        compare_at(rt, &engine, &mut room, x, y, wanted, &mut steps);
    }
    for &(id, wanted) in chains {
        assert!(rt; engine.page().has(id) && 256 <= room.len());
        let ids = crate::chain(&engine, &mut room, id, &mut steps);
        assert_eq!(rt; ids, wanted, "{id}");
    }
    Ok(())
}

#[test]
fn an_empty_page_has_no_element(rt: HostRuntime) -> Result<(), Fail> {
    compare::<Brand>(&rt, rt.alloc(), &[], &[(5, 5, &[])], &[], Blank::new(1))
}

#[test]
fn boxes_are_half_open_and_chains_lead_from_the_root(rt: HostRuntime) -> Result<(), Fail> {
    let alloc = rt.alloc();
    let edits = vec![in alloc;
        block(alloc, 0, 0, &[(0, 0, 100, 100)])?,
        block(alloc, 1, 0, &[(10, 10, 40, 40)])?,
        block(alloc, 1, 1, &[(30, 30, 40, 40)])?,
        block(alloc, 2, 0, &[(5, 5, 10, 10)])?,
        block(alloc, 2, 1, &[])?,
        block(alloc, 5, 0, &[(-10, 0, 4, 4)])?,
    ]?;
    compare::<Brand>(
        &rt,
        alloc,
        &edits,
        &[
            (35, 35, &[3, 2, 1]),
            (200, 200, &[1]),
            (15, 15, &[4, 2, 1]),
            (24, 24, &[4, 2, 1]),
            (25, 25, &[2, 1]),
            (50, 50, &[3, 1]),
            (70, 70, &[1]),
            (0, 10, &[6, 1]),
            (4, 10, &[1]),
            (81_920, 46_080, &[1]),
            (81_921, 0, &[]),
            (0, 46_081, &[]),
            (-1, 0, &[]),
            (0, -1, &[]),
        ],
        &[(1, &[1]), (3, &[1, 3]), (4, &[1, 2, 4]), (6, &[1, 2, 5, 6])],
        Blank::new(1),
    )
}
