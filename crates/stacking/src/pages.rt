use box_tree::{Edit, Kind, Page, Piece, PieceList};
use computed_style::{Position, Style};
use std::alloc::Global;
use std::process::Abort;
use std::test::Fail;

// What is declared on a node.
#[derive(Clone, Copy)]
pub(crate) struct Look {
    pub position: Position,
    pub z: Option<i32>,
    pub floats: bool,
    pub display_block: bool,
    pub opacity: u16,
}

pub(crate) const PLAIN: Look = Look {
    position: Position::Static,
    z: None,
    floats: false,
    display_block: false,
    opacity: 1000,
};

pub(crate) const RELATIVE: Look = Look {
    position: Position::Relative,
    ..PLAIN
};

pub(crate) const FLOAT: Look = Look {
    floats: true,
    ..PLAIN
};

pub(crate) const DISPLAY_BLOCK: Look = Look {
    display_block: true,
    ..PLAIN
};

const BOX: Piece = Piece {
    line: 0,
    l: 0,
    t: 0,
    w: 50,
    h: 50,
};

// A relative node with a z-index.
pub(crate) fn with_z(z: i32) -> Look {
    Look {
        z: Some(z),
        ..RELATIVE
    }
}

// The boxes of a node: SVG content has none, and every other node one.
fn boxes_of(alloc: Global, kind: Kind) -> Result<PieceList, Fail> {
    let boxes = match kind {
        Kind::Group | Kind::Shape | Kind::Inner => Vec::new(alloc),
        _ => Vec::from_array(alloc, [BOX])?,
    };
    Ok(PieceList(boxes))
}

// Adds a node after the other children of its parent.
pub(crate) fn add(
    rt: &impl Abort,
    alloc: Global,
    page: &mut Page,
    (parent, at, kind, look): (u32, u32, Kind, Look),
) -> Result<(), Fail> {
    let mut style = Style::new(alloc);
    style.position = look.position;
    style.z = look.z;
    style.floats = look.floats;
    style.display_block = look.display_block;
    style.opacity = look.opacity;
    let edit = Edit::Add {
        parent,
        at,
        kind,
        boxes: boxes_of(alloc, kind)?,
        style,
    };
    assert!(rt; edit.in_range());
    let prepared = page.check(&edit)?;
    let undo = page.commit(prepared);
    page.settle(undo);
    Ok(())
}
