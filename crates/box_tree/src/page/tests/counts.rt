// The greatest counts of a page: of its nodes, of its boxes, and of the vertices of its shapes.
use super::*;
use svg_shapes::{FineBox, FineBoxes, Shape};

// An edit of a table; what is added or moved comes as the first child.
#[derive(Clone, Copy, Debug)]
enum Step {
    // a block without a box, below this node
    Block(u32),
    // a block with two boxes, below this node
    Twofold(u32),
    // an inline with so many boxes, below the root
    Inline(usize),
    // an svg below the root, and a shape in the node 2
    Svg,
    Shape,
    // boxes of a node, and the boxes of a text as its shape, with two vertices each
    Place(u32, usize),
    Outline(u32, usize),
    // a node goes below another one
    Move(u32, u32),
    Remove(u32),
}

// The boxes of a text.
fn outline_of(alloc: Global, count: usize) -> Result<Form, Fail> {
    let mut boxes = Vec::new(alloc);
    for _ in 0..count {
        boxes.push(FineBox {
            x: 0,
            y: 0,
            w: 0,
            h: 0,
        })?;
    }
    Ok(Form::Outline(Shape::Boxes(FineBoxes(boxes))))
}

fn edit_of(alloc: Global, step: Step) -> Result<Edit, Fail> {
    match step {
        Step::Block(parent) => add(alloc, parent, 0, Kind::Block, 0),
        Step::Twofold(parent) => add(alloc, parent, 0, Kind::Block, 2),
        Step::Inline(boxes) => add(alloc, 1, 0, Kind::Inline, boxes),
        Step::Svg => add(alloc, 1, 0, Kind::Svg, 1),
        Step::Shape => add(alloc, 2, 0, Kind::Shape, 0),
        Step::Place(id, boxes) => place(alloc, id, boxes),
        Step::Outline(id, boxes) => Ok(Edit::Reshape {
            id,
            form: outline_of(alloc, boxes)?,
        }),
        Step::Move(id, parent) => Ok(Edit::Move { id, parent, at: 0 }),
        Step::Remove(id) => Ok(Edit::Remove { id }),
    }
}

// Compares what the page answers to each step of a table.
fn play(
    rt: &impl Abort,
    alloc: Global,
    page: &mut Page,
    rows: &[(Step, Result<u32, Option<u8>>)],
) -> Result<(), Fail> {
    for (step, expected) in rows {
        let edit = edit_of(alloc, *step)?;
        assert_eq!(rt; answer(rt, page, &edit), *expected, "{step:?}");
    }
    Ok(())
}

// A page of a root with one box.
fn root_alone(rt: &impl Abort, alloc: Global) -> Result<Page, Fail> {
    let mut page = Page::new(alloc, 81_920, 46_080);
    let root = add(alloc, 0, 0, Kind::Block, 1)?;
    assert_eq!(rt; answer(rt, &mut page, &root), Ok(1));
    Ok(page)
}

const FULL: Result<u32, Option<u8>> = Err(Some(10));

// The root has 255 children, and each of them 256: with the root they are 65,536.
#[test]
fn a_page_has_at_most_65_536_nodes(rt: HostRuntime) -> Result<(), Fail> {
    let alloc = rt.alloc();
    let mut page = root_alone(&rt, alloc)?;
    for id in 2..65_537u32 {
        let step = Step::Block(1 + (id - 1) / 256);
        play(&rt, alloc, &mut page, &[(step, Ok(id))])?;
    }
    assert_eq!(rt; page.count(), 65_536);
    play(
        &rt,
        alloc,
        &mut page,
        &[
            (Step::Block(2), FULL),
            (Step::Twofold(2), Err(Some(6))),
            (Step::Remove(65_536), Ok(0)),
            (Step::Block(2), Ok(65_537)),
            (Step::Block(2), FULL),
        ],
    )
}

// The root has a box and 255 inlines have 1,024 each: with 1,023 more the page has 262,144.
#[test]
fn a_page_has_at_most_262_144_boxes(rt: HostRuntime) -> Result<(), Fail> {
    let alloc = rt.alloc();
    let mut page = root_alone(&rt, alloc)?;
    for id in 2..257u32 {
        play(&rt, alloc, &mut page, &[(Step::Inline(1024), Ok(id))])?;
    }
    play(
        &rt,
        alloc,
        &mut page,
        &[
            (Step::Inline(1024), FULL),
            (Step::Inline(1023), Ok(257)),
            (Step::Inline(1), FULL),
            (Step::Inline(0), Ok(258)),
            (Step::Inline(1), FULL),
            (Step::Move(257, 2), Ok(0)),
            (Step::Place(258, 1), FULL),
            (Step::Place(257, 1024), FULL),
            (Step::Place(257, 1023), Ok(0)),
            (Step::Place(257, 1022), Ok(0)),
            (Step::Place(258, 1), Ok(0)),
            (Step::Place(258, 2), FULL),
            (Step::Remove(2), Ok(0)),
            (Step::Inline(1024), Ok(259)),
            (Step::Inline(1023), FULL),
        ],
    )
}

// A shape has at most 4,096 vertices, and the page 1,048,576, as the 256 shapes from 3 on have; a shape that goes, with its
// node or for another one, makes room.
#[test]
fn vertices_are_limited(rt: HostRuntime) -> Result<(), Fail> {
    let alloc = rt.alloc();
    let mut page = root_alone(&rt, alloc)?;
    play(&rt, alloc, &mut page, &[(Step::Svg, Ok(2))])?;
    for id in 3..259u32 {
        let rows = [(Step::Shape, Ok(id)), (Step::Outline(id, 2_048), Ok(0))];
        play(&rt, alloc, &mut page, &rows)?;
    }
    play(
        &rt,
        alloc,
        &mut page,
        &[
            (Step::Shape, Ok(259)),
            (Step::Outline(259, 0), Ok(0)),
            (Step::Outline(259, 1), FULL),
            (Step::Outline(3, 2_049), FULL),
            (Step::Outline(3, 2_048), Ok(0)),
            (Step::Outline(3, 2_047), Ok(0)),
            (Step::Outline(259, 1), Ok(0)),
            (Step::Outline(259, 2), FULL),
            (Step::Outline(2, 2_049), Err(Some(6))),
            (Step::Outline(999, 2_049), Err(Some(4))),
            (Step::Remove(4), Ok(0)),
            (Step::Outline(259, 2_048), Ok(0)),
        ],
    )
}
