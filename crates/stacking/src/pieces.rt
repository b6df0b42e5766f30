ghost use Rattle.std.specs.Prelude.{◌≡◌, ◌<◌, ◌^◌, ◌++◌, ◌∷◌, [], ◌&&◌, length, map, IsTrue, IfOk, if◌then◌else◌};
ghost use Rattle.std.specs.Option.{option_map, option_copied};
ghost use Rattle.box_tree.specs.Contents.{IsValid, has_id};
ghost use Rattle.box_tree.specs.Kept.{label_of};
ghost use Rattle.box_tree.specs.Used.{is_in_flow};
ghost use Rattle.box_tree.specs.Suits.{is_text};
ghost use Rattle.stacking.specs.Painting.{is_inline, is_atom, own_pieces, first_line, pieces, is_on_lower_line};
ghost use Rattle.stacking.specs.Sorting.{sorted_by};
ghost use Rattle.stacking.specs.OnPage.{of_node, gathered, part_of, line_parts, line_pieces};

use crate::items::box_item;
use crate::memory::OutOfMemory;
use crate::reading::{parent_in, read};
use crate::roles::{is_atom, is_inline};
use box_tree::{Item, Node, Page, Piece, is_in_flow};
use std::alloc::Global;

/// What a piece of a line paints: one box, or an atomic node as a whole.
#[derive(Clone, Copy)]
pub(crate) enum Painted {
    OneBox { item: Item },
    Whole { node: u32 },
}

/// A piece of a line, with the number of the line.
#[derive(Clone, Copy)]
pub(crate) struct LinePart {
    pub line: u16,
    pub what: Painted,
}

// What a child gives to the lines around it.
enum LineRole {
    // a piece for each box
    Boxes,
    // a piece for each box, and then what is in it
    BoxesAndBelow,
    // one piece
    Whole,
    Nothing,
}

// The pieces of the lines of a node, line by line.
pub(crate) fn line_parts(alloc: Global, page: &Page, id: u32) -> Result<Vec<LinePart>, OutOfMemory>
    requires valid { IsValid page.now.contents }
    requires there { IsTrue (has_id page.now.contents id) }
    ensures { IfOk result (λ parts. parts.items ≡ map part_of (of_node line_pieces page.now.contents id)) }
{
    let mut parts = Vec::new(alloc);
    let node = read(page, id);
    if is_inline(parent_in(page, id), node) {
        push_boxes(node, &mut parts)?;
    }
    push_below(page, id, &mut parts)?;
    parts.sort_by_key(|part| part.line)?;
    Ok(parts)
}

// Appends the pieces that the children of a node give.
fn push_below(page: &Page, id: u32, parts: &mut Vec<LinePart>) -> Result<(), OutOfMemory>
    requires valid { IsValid page.now.contents }
    requires there { IsTrue (has_id page.now.contents id) }
    ensures { IfOk result (λ _. parts.new.items ≡ parts.old.items ++ gathered line_parts page.now.contents id) }
{
    let node = read(page, id);
    for child in node.children.as_slice() {
        let inner = read(page, *child);
        match line_role(node, inner) {
            LineRole::Boxes => push_boxes(inner, parts)?,
            LineRole::BoxesAndBelow => {
                push_boxes(inner, parts)?;
                push_below(page, *child, parts)?;
            }
            LineRole::Whole => push_whole(inner, parts)?,
            LineRole::Nothing => {}
        }
    }
    Ok(())
}

// What a child of a node gives to the lines around it.
fn line_role(parent: &Node, node: &Node) -> LineRole
    ensures { result ≡ (let n = label_of node.now in
        if is_text n.kind then LineRole.Boxes
        else if is_in_flow (Some (label_of parent.now)) n && is_inline (Some (label_of parent.now)) n then LineRole.BoxesAndBelow
        else if is_atom (Some (label_of parent.now)) n then LineRole.Whole
        else LineRole.Nothing) }
{
    if node.kind.is_text() {
        LineRole::Boxes
    } else if is_in_flow(Some(parent), node) && is_inline(Some(parent), node) {
        LineRole::BoxesAndBelow
    } else if is_atom(Some(parent), node) {
        LineRole::Whole
    } else {
        LineRole::Nothing
    }
}

// Appends a piece for each box of a node.
fn push_boxes(node: &Node, parts: &mut Vec<LinePart>) -> Result<(), OutOfMemory>
    requires { length node.now.boxes < 2 ^ 32 }
    ensures { IfOk result (λ _. parts.new.items ≡ parts.old.items ++ map part_of (own_pieces (label_of node.now))) }
{
    for (place, piece) in node.boxes.as_slice().iter().enumerate() {
        parts.push(LinePart {
            line: piece.line,
            what: Painted::OneBox {
                item: box_item(node.id, place),
            },
        })?;
    }
    Ok(())
}

// Appends one piece for an atomic node.
fn push_whole(node: &Node, parts: &mut Vec<LinePart>) -> Result<(), OutOfMemory>
    ensures { IfOk result (λ _. parts.new.items ≡ parts.old.items ++ record { line = first_line node.now.boxes; what = Painted.Whole node.now.id } ∷ []) }
{
    parts.push(LinePart {
        line: first_line(node.boxes.as_slice()),
        what: Painted::Whole { node: node.id },
    })?;
    Ok(())
}

// The line of the first of some boxes, 0 without one.
fn first_line(boxes: &[Piece]) -> u16
    ensures { result ≡ first_line boxes.now }
{
    match boxes.first() {
        Some(piece) => piece.line,
        None => 0,
    }
}
