// What the calls of a page answer. Pages that are edited and hit are played as scripts where lines are read, higher up.
ghost use Rattle.std.specs.Prelude.{◌≡◌, ◌<◌, IsTrue};
ghost use Rattle.box_tree.specs.Contents.{has_id};

use super::*;
use crate::edit::Edit;
use crate::form::Form;
use crate::kind::Kind;
use crate::piece::{Piece, PieceList};
use computed_style::Style;
use fractions::{Blank, Brand, Spot};
use std::process::Abort;
use std::test::Fail;

mod counts;
mod items;
mod reverts;

// So many boxes of 100 by 100 units.
fn boxes_of(alloc: Global, count: usize) -> Result<PieceList, Fail> {
    let mut pieces = Vec::new(alloc);
    for _ in 0..count {
        pieces.push(Piece {
            line: 0,
            l: 1,
            t: 2,
            w: 100,
            h: 100,
        })?;
    }
    Ok(PieceList(pieces))
}

// An add of a node of a kind with so many boxes, as a child of a node, or as the root.
fn add(alloc: Global, parent: u32, at: u32, kind: Kind, boxes: usize) -> Result<Edit, Fail> {
    Ok(Edit::Add {
        parent,
        at,
        kind,
        boxes: boxes_of(alloc, boxes)?,
        style: Style::new(alloc),
    })
}

// What the page answers to an edit: the id of a new node, or the number of a fault.
fn answer(rt: &impl Abort, page: &mut Page, edit: &Edit) -> Result<u32, Option<u8>> {
    assert!(rt; edit.in_range());
    match page.check(edit) {
        Ok(prepared) => {
            let undo = page.commit(prepared);
            match page.settle(undo) {
                Done::Node { id } => Ok(id),
                Done::Done => Ok(0),
            }
        }
        Err(fault) => Err(fault.number()),
    }
}

// A place of a node with so many boxes.
fn place(alloc: Global, id: u32, boxes: usize) -> Result<Edit, Fail> {
    Ok(Edit::Place {
        id,
        anchor: Spot { x: 7, y: -7 },
        boxes: boxes_of(alloc, boxes)?,
        max: Spot { x: 5, y: 6 },
    })
}

// Where a page takes an edit, carries it out and takes it back.
fn revert(rt: &impl Abort, page: &mut Page, edit: &Edit) {
    assert!(rt; edit.in_range());
    if let Ok(prepared) = page.check(edit) {
        let undo = page.commit(prepared);
        page.revert(undo);
    }
}

fn children_with<L: Ledger>(
    alloc: Global,
    page: &Page,
    id: u32,
    blank: Blank,
) -> Result<Vec<u32>, Fail>
    requires there { IsTrue (has_id page.now.contents id) }
    requires name { blank.name ≡ L.name }
    requires parts { blank.parts ≡ L.parts }
    requires some_parts { 0 < blank.parts }
{
    let mut steps = Steps::<L>::new(blank);
    let node = page.node(id, &mut steps);
    Ok(Vec::from_slice(alloc, node.children.as_slice())?)
}

#[test]
fn a_child_stands_at_its_place(rt: HostRuntime) -> Result<(), Fail> {
    let alloc = rt.alloc();
    let mut page = Page::new(alloc, 81_920, 46_080);
    assert_eq!(rt; page.root(), None);
    for (parent, at, id) in [(0, 0, 1), (1, 0, 2), (1, 0, 3), (1, 1, 4), (1, 3, 5)] {
        let edit = add(alloc, parent, at, Kind::Block, 1)?;
        assert_eq!(rt; answer(&rt, &mut page, &edit), Ok(id));
    }
    assert_eq!(rt; page.root(), Some(1));
    assert_eq!(rt; (page.count(), page.next_id()), (5, 6));
    assert!(rt; page.has(1) && !page.has(6) && !page.has(0));
    assert_eq!(rt; page.viewport().w, 81_920);
    page.validity();
    let children = children_with::<Brand>(alloc, &page, 1, Blank::new(1))?;
    assert_eq!(rt; children.as_slice(), [3, 4, 2, 5].as_slice());
    Ok(())
}

#[test]
fn faults_have_their_names(rt: HostRuntime) {
    for (fault, number, name) in [
        (EditFault::Absent, Some(4), "absent"),
        (EditFault::Root, Some(5), "root"),
        (EditFault::Kind, Some(6), "kind"),
        (EditFault::Cycle, Some(7), "cycle"),
        (EditFault::Place, Some(8), "place"),
        (EditFault::Deep, Some(9), "deep"),
        (EditFault::Full, Some(10), "full"),
        (EditFault::Bound, Some(11), "bound"),
        (EditFault::OutOfMemory, None, "memory"),
    ] {
        assert_eq!(rt; fault.number(), number);
        assert_eq!(rt; fault.name(), name);
    }
}
