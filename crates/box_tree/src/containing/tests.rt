use super::*;
use crate::edit::{Done, Edit};
use crate::kind::Kind;
use crate::piece::{Piece, PieceList};
use computed_style::{Function, Style};
use std::alloc::Global;
use std::process::Abort;
use std::test::Fail;

// What the rows of the tables say of a style.
#[derive(Clone, Copy)]
enum Says {
    Nothing,
    Floats,
    Transform,
    Level(i32),
    Opacity(u16),
}

use Kind::{Block, Image, Inline, InlineBlock, Text};
use Position::{Absolute, Fixed, Relative, Static};
use Says::{Floats, Level, Nothing, Opacity, Transform};

fn style_of(alloc: Global, position: Position, says: Says) -> Result<Style, Fail> {
    let mut style = Style::new(alloc);
    style.position = position;
    match says {
        Nothing => {}
        Floats => style.floats = true,
        Transform => style.transform.0.push(Function::Quarter { turns: 1 })?,
        Level(z) => style.z = Some(z),
        Opacity(thousandths) => style.opacity = thousandths,
    }
    Ok(style)
}

// Adds a node with one box as the first child of another, or as the root.
fn add(
    rt: &impl Abort,
    alloc: Global,
    page: &mut Page,
    parent: u32,
    kind: Kind,
    style: Style,
) -> Result<Done, Fail> {
    let boxes = PieceList(vec![in alloc; Piece::default()]?);
    let edit = Edit::Add {
        parent,
        at: 0,
        kind,
        boxes,
        style,
    };
    assert!(rt; edit.in_range());
    let prepared = page.check(&edit)?;
    let undo = page.commit(prepared);
    Ok(page.settle(undo))
}

// Compares what holds a node, and whether it is a stacking context, with what is wanted.
fn compare(rt: &impl Abort, page: &Page, id: u32, holder: Holder, is_context: bool) {
    assert!(rt; page.has(id));
    assert_eq!(rt; page.containing_block(id), holder, "{id}");
    assert_eq!(rt; page.makes_context(id), is_context, "{id}");
}

fn held(id: u32) -> Holder {
    Holder::Node { id }
}

#[test]
fn each_kind_and_position_has_its_containing_block(rt: HostRuntime) -> Result<(), Fail> {
    let alloc = rt.alloc();
    let mut page = Page::new(alloc, 81_920, 46_080);
    let rows = [
        (1, 0, Block, Static, Nothing, Holder::Initial, true),
        (2, 1, Block, Static, Nothing, held(1), false),
        (3, 2, Inline, Relative, Nothing, held(2), false),
        (4, 3, Block, Absolute, Nothing, held(3), false),
        (5, 3, Block, Static, Nothing, held(2), false),
        (6, 3, Text, Static, Nothing, held(2), false),
        (7, 4, Block, Fixed, Nothing, Holder::Viewport, true),
        (8, 7, Block, Absolute, Nothing, held(7), false),
        (9, 2, Inline, Static, Floats, held(2), false),
        (10, 9, Text, Static, Nothing, held(9), false),
        (11, 9, Block, Absolute, Nothing, Holder::Initial, false),
        (12, 2, InlineBlock, Static, Opacity(999), held(2), true),
        (13, 12, Image, Static, Nothing, held(12), false),
        (14, 12, Inline, Absolute, Nothing, Holder::Initial, false),
        (15, 2, Block, Static, Transform, held(2), true),
        (16, 15, Inline, Static, Nothing, held(15), false),
        (17, 16, Block, Absolute, Nothing, held(15), false),
        (18, 16, Block, Fixed, Nothing, held(15), true),
        (19, 2, Inline, Static, Transform, held(2), false),
        (20, 19, Block, Fixed, Nothing, Holder::Viewport, true),
        (21, 19, Block, Absolute, Nothing, Holder::Initial, false),
        (22, 2, InlineBlock, Relative, Level(0), held(2), true),
        (23, 22, Block, Relative, Level(-3), held(22), true),
        (24, 23, Inline, Absolute, Transform, held(23), true),
        (25, 24, Text, Static, Nothing, held(24), false),
        (26, 24, Block, Fixed, Nothing, held(24), true),
        (27, 2, Block, Absolute, Floats, Holder::Initial, false),
        (28, 2, Block, Static, Level(5), held(2), false),
        (29, 12, Image, Fixed, Nothing, Holder::Viewport, true),
    ];
    for (id, parent, kind, position, says, holder, is_context) in rows {
        let style = style_of(alloc, position, says)?;
        let done = add(&rt, alloc, &mut page, parent, kind, style)?;
        assert_eq!(rt; done, Done::Node { id });
        compare(&rt, &page, id, holder, is_context);
    }
    Ok(())
}

#[test]
fn a_root_holds_what_is_absolute_where_it_is_positioned(rt: HostRuntime) -> Result<(), Fail> {
    let alloc = rt.alloc();
    for (position, holder, below) in [
        (Static, Holder::Initial, Holder::Initial),
        (Relative, Holder::Initial, held(1)),
        (Absolute, Holder::Initial, held(1)),
        (Fixed, Holder::Viewport, held(1)),
    ] {
        let mut page = Page::new(alloc, 81_920, 46_080);
        let style = style_of(alloc, position, Nothing)?;
        add(&rt, alloc, &mut page, 0, Block, style)?;
        let style = style_of(alloc, Absolute, Nothing)?;
        add(&rt, alloc, &mut page, 1, Inline, style)?;
        compare(&rt, &page, 1, holder, true);
        compare(&rt, &page, 2, below, false);
    }
    Ok(())
}
