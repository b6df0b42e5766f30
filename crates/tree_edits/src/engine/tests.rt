ghost use Rattle.std.specs.Prelude.{◌≡◌, ◌<◌, ◌≤ℤ◌, pos};

use super::*;
use box_tree::{Kind, Piece, PieceList};
use computed_style::Style;
use fractions::{Blank, Brand, Spot};
use std::process::Abort;
use std::test::Fail;

// An add of a block with one box below a parent that has no children yet.
fn first_child(alloc: Global, parent: u32) -> Result<Edit, Fail> {
    let mut boxes = Vec::new(alloc);
    boxes.push(Piece {
        line: 0,
        l: 0,
        t: 0,
        w: 100,
        h: 100,
    })?;
    Ok(Edit::Add {
        parent,
        at: 0,
        kind: Kind::Block,
        boxes: PieceList(boxes),
        style: Style::new(alloc),
    })
}

// The items in the cell of the first level that holds a point on the upper edge of the viewport are the expected ones.
fn assert_stand<L: Ledger>(
    rt: &impl Abort,
    engine: &Engine,
    x: i64,
    expected: &[u32],
    steps: &mut Steps<L>,
)
    requires { pos 0 ≤ℤ x }
{
    let page = engine.page();
    page.validity();
    assert!(rt; x <= page.viewport().w);
    assert_eq!(rt; engine.grid().visit(x, 0, 0, steps), expected);
}

// A wider viewport, whose grid has a second cell in its first row.
fn resize<L: Ledger>(rt: &impl Abort, engine: &mut Engine, steps: &mut Steps<L>) {
    let wider = Edit::Resize {
        w: 4096,
        h: 480,
        max: Spot { x: 0, y: 0 },
    };
    assert!(rt; wider.in_range());
    assert_eq!(rt; engine.edit(&wider, steps), Ok(Done::Done));
    assert_stand(rt, engine, 4095, &[0], steps);
    assert_stand(rt, engine, 4096, &[], steps);
    let expected = Rect {
        l: 0,
        t: 0,
        r: 101,
        b: 101,
    };
    assert_eq!(rt; engine.bounds().first(), Some(&expected));
}

fn edit_in_turn<L: Ledger>(rt: &impl Abort, alloc: Global, blank: Blank) -> Result<(), Fail>
    requires name { blank.name ≡ L.name }
    requires parts { blank.parts ≡ L.parts }
    requires some_parts { 0 < blank.parts }
{
    let mut steps = Steps::<L>::new(blank);
    let mut engine = Engine::new(alloc, 640, 480)?;
    for (parent, expected) in [
        (7, Err(EditFault::Absent)),
        (0, Ok(Done::Node { id: 1 })),
        (0, Err(EditFault::Root)),
        (1, Ok(Done::Node { id: 2 })),
    ] {
        let edit = first_child(alloc, parent)?;
        assert!(rt; edit.in_range());
        assert_eq!(rt; engine.edit(&edit, &mut steps), expected);
    }
    assert_eq!(rt; engine.page().next_id(), 3);
    assert!(rt; engine.spaces().space_of(2, &mut steps).is_some());
    assert_stand(rt, &engine, 640, &[0, 1], &mut steps);
    assert_eq!(rt;
        engine.edit(&Edit::Remove { id: 2 }, &mut steps),
        Ok(Done::Done)
    );
    assert!(rt; engine.spaces().space_of(2, &mut steps).is_none());
    assert_stand(rt, &engine, 640, &[0], &mut steps);
    resize(rt, &mut engine, &mut steps);
    Ok(())
}

#[test]
fn edits_are_applied_or_refused_in_turn(rt: HostRuntime) -> Result<(), Fail> {
    edit_in_turn::<Brand>(&rt, rt.alloc(), Blank::new(1))
}
