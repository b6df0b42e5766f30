use super::*;
use crate::edit::Edit;
use crate::page::Page;
use crate::piece::{Piece, PieceList};
use Kind::{Block, Image, Inline, InlineBlock, Text};
use Position::{Absolute, Fixed, Relative, Static};
use computed_style::{Function, Style};
use std::alloc::Global;
use std::process::Abort;
use std::test::Fail;

// What a style says beside the position.
#[derive(Clone, Copy)]
enum Says {
    Nothing,
    Floats,
    Transform,
    FloatsAndTransform,
    Display,
    Level(i32),
    Opacity(u16),
}

use Says::{Display, Floats, FloatsAndTransform, Level, Nothing, Opacity, Transform};

fn style_of(alloc: Global, position: Position, says: Says) -> Result<Style, Fail> {
    let mut style = Style::new(alloc);
    style.position = position;
    style.floats = matches!(&says, Floats | FloatsAndTransform);
    style.display_block = matches!(&says, Display);
    if matches!(&says, Transform | FloatsAndTransform) {
        style.transform.0.push(Function::Quarter { turns: 1 })?;
    }
    if let Level(z) = says {
        style.z = Some(z);
    }
    if let Opacity(thousandths) = says {
        style.opacity = thousandths;
    }
    Ok(style)
}

fn add(
    rt: &impl Abort,
    alloc: Global,
    page: &mut Page,
    parent: u32,
    kind: Kind,
    style: Style,
) -> Result<(), Fail> {
    let boxes = PieceList(vec![in alloc; Piece::default()]?);
    let edit = Edit::Add {
        parent,
        at: 0,
        kind,
        boxes,
        style,
    };
    assert!(rt; edit.in_range());
    let prepared = page.check(&edit)?;
    let undo = page.commit(prepared);
    page.settle(undo);
    Ok(())
}

// The used values in the order of the tables, each 1 or 0.
fn values_of(page: &Page, id: u32) -> Option<([u8; 9], i32)> {
    let node = page.find(id)?;
    let parent = page.find(node.parent);
    let values = [
        u8::from(is_taken_out(parent, node)),
        u8::from(is_floating(parent, node)),
        u8::from(is_block_level(parent, node)),
        u8::from(is_block_container(parent, node)),
        u8::from(is_atomic(parent, node)),
        u8::from(is_transformed(parent, node)),
        u8::from(is_positioned(parent, node)),
        u8::from(is_real_context(parent, node)),
        u8::from(is_in_flow(parent, node)),
    ];
    Some((values, stack_level(parent, node)))
}

#[test]
fn each_kind_and_style_has_its_used_values(rt: HostRuntime) -> Result<(), Fail> {
    let alloc = rt.alloc();
    // taken out, floating, block level, block container, atomic, transformed, positioned, real context, in flow; level
    for (kind, position, says, values, level) in [
        (Block, Static, Nothing, [0, 0, 1, 1, 0, 0, 0, 0, 1], 0),
        (Block, Relative, Level(-3), [0, 0, 1, 1, 0, 0, 1, 1, 0], -3),
        (Block, Relative, Nothing, [0, 0, 1, 1, 0, 0, 1, 0, 0], 0),
        (Block, Absolute, Floats, [1, 0, 1, 1, 0, 0, 1, 0, 0], 0),
        (Block, Static, Floats, [0, 1, 1, 1, 0, 0, 0, 0, 0], 0),
        (Block, Static, Level(5), [0, 0, 1, 1, 0, 0, 0, 0, 1], 0),
        (Block, Fixed, Nothing, [1, 0, 1, 1, 0, 0, 1, 1, 0], 0),
        (Block, Static, Transform, [0, 0, 1, 1, 0, 1, 0, 1, 0], 0),
        (Inline, Static, Nothing, [0, 0, 0, 0, 0, 0, 0, 0, 1], 0),
        (Inline, Static, Transform, [0, 0, 0, 0, 0, 0, 0, 0, 1], 0),
        (
            Inline,
            Static,
            FloatsAndTransform,
            [0, 1, 1, 1, 0, 1, 0, 1, 0],
            0,
        ),
        (Inline, Absolute, Level(7), [1, 0, 1, 1, 0, 0, 1, 1, 0], 7),
        (InlineBlock, Static, Nothing, [0, 0, 0, 1, 1, 0, 0, 0, 1], 0),
        (
            InlineBlock,
            Static,
            Transform,
            [0, 0, 0, 1, 1, 1, 0, 1, 0],
            0,
        ),
        (InlineBlock, Static, Floats, [0, 1, 1, 1, 0, 0, 0, 0, 0], 0),
        (Image, Static, Nothing, [0, 0, 0, 0, 1, 0, 0, 0, 1], 0),
        (Image, Static, Display, [0, 0, 1, 0, 0, 0, 0, 0, 1], 0),
        (Image, Fixed, Nothing, [1, 0, 1, 0, 0, 0, 1, 1, 0], 0),
        (Image, Static, Opacity(999), [0, 0, 0, 0, 1, 0, 0, 1, 0], 0),
        (Text, Static, Nothing, [0, 0, 0, 0, 0, 0, 0, 0, 1], 0),
    ] {
        let mut page = Page::new(alloc, 81_920, 46_080);
        add(&rt, alloc, &mut page, 0, Block, Style::new(alloc))?;
        add(&rt, alloc, &mut page, 1, Inline, Style::new(alloc))?;
        add(
            &rt,
            alloc,
            &mut page,
            2,
            kind,
            style_of(alloc, position, says)?,
        )?;
        assert_eq!(rt;
            values_of(&page, 3),
            Some((values, level)),
            "{kind:?} {position:?}"
        );
    }
    Ok(())
}

#[test]
fn a_root_is_a_block_level_context_that_does_not_float(rt: HostRuntime) -> Result<(), Fail> {
    let alloc = rt.alloc();
    for (position, says, values, level) in [
        (Static, Floats, [0, 0, 1, 1, 0, 0, 0, 1, 0], 0),
        (Absolute, Level(4), [1, 0, 1, 1, 0, 0, 1, 1, 0], 4),
        (Relative, Transform, [0, 0, 1, 1, 0, 1, 1, 1, 0], 0),
    ] {
        let mut page = Page::new(alloc, 81_920, 46_080);
        add(
            &rt,
            alloc,
            &mut page,
            0,
            Block,
            style_of(alloc, position, says)?,
        )?;
        assert_eq!(rt; values_of(&page, 1), Some((values, level)), "{position:?}");
    }
    Ok(())
}
