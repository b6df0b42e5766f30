ghost use Rattle.std.specs.Prelude.{◌≡◌, ◌++◌, map, IsTrue, IfOk};
ghost use Rattle.std.specs.List.{flat_map};
ghost use Rattle.box_tree.specs.Contents.{IsValid, has_id};
ghost use Rattle.stacking.specs.Painting.{own, blocks, floats, lines, flat, body, painted_piece};
ghost use Rattle.stacking.specs.OnPage.{of_node, ids_of, part_of, line_pieces};

use crate::content::push_content;
use crate::items::{push_head, push_own};
use crate::memory::OutOfMemory;
use crate::pieces::{LinePart, Painted, line_parts};
use crate::reach::reached_from;
use crate::reading::read;
use crate::roles::is_replaced;
use box_tree::{Item, Page};
use std::alloc::Global;

// Appends a node painted as one, without its members.
#[cycle(walks)]
pub(crate) fn paint_flat(
    alloc: Global,
    page: &Page,
    id: u32,
    items: &mut Vec<Item>,
) -> Result<(), OutOfMemory>
    requires valid { IsValid page.now.contents }
    requires there { IsTrue (has_id page.now.contents id) }
    ensures { IfOk result (λ _. items.new.items ≡ items.old.items ++ of_node flat page.now.contents id) }
{
    push_head(page, id, items)?;
    paint_body(alloc, page, id, items)
}

// Appends the boxes of the blocks in a node; the floats; its lines, and those of the blocks.
#[cycle(walks)]
pub(crate) fn paint_body(
    alloc: Global,
    page: &Page,
    id: u32,
    items: &mut Vec<Item>,
) -> Result<(), OutOfMemory>
    requires valid { IsValid page.now.contents }
    requires there { IsTrue (has_id page.now.contents id) }
    ensures { IfOk result (λ _. items.new.items ≡ items.old.items ++ of_node body page.now.contents id) }
{
    let met = reached_from(alloc, page, id)?;
    push_blocks(page, id, &met.blocks, items)?;
    paint_floats(alloc, page, id, &met.floats, items)?;
    paint_lines(alloc, page, id, items)?;
    paint_block_lines(alloc, page, id, &met.blocks, items)
}

// Appends the boxes of the blocks in a node.
fn push_blocks(page: &Page, id: u32, ids: &[u32], items: &mut Vec<Item>) -> Result<(), OutOfMemory>
    requires valid { IsValid page.now.contents }
    requires there { IsTrue (has_id page.now.contents id) }
    requires ids { ids.now ≡ ids_of (of_node blocks page.now.contents id) }
    ensures { IfOk result (λ _. items.new.items ≡ items.old.items ++ flat_map own (of_node blocks page.now.contents id)) }
{
    for block in ids {
        push_own(page, *block, items)?;
    }
    Ok(())
}

// Appends the floats in a node, each painted as one.
#[cycle(walks)]
fn paint_floats(
    alloc: Global,
    page: &Page,
    id: u32,
    ids: &[u32],
    items: &mut Vec<Item>,
) -> Result<(), OutOfMemory>
    requires valid { IsValid page.now.contents }
    requires there { IsTrue (has_id page.now.contents id) }
    requires ids { ids.now ≡ ids_of (of_node floats page.now.contents id) }
    ensures { IfOk result (λ _. items.new.items ≡ items.old.items ++ flat_map flat (of_node floats page.now.contents id)) }
{
    for float in ids {
        paint_flat(alloc, page, *float, items)?;
    }
    Ok(())
}

// Appends what lies on the lines of the blocks in a node.
#[cycle(walks)]
fn paint_block_lines(
    alloc: Global,
    page: &Page,
    id: u32,
    ids: &[u32],
    items: &mut Vec<Item>,
) -> Result<(), OutOfMemory>
    requires valid { IsValid page.now.contents }
    requires there { IsTrue (has_id page.now.contents id) }
    requires ids { ids.now ≡ ids_of (of_node blocks page.now.contents id) }
    ensures { IfOk result (λ _. items.new.items ≡ items.old.items ++ flat_map lines (of_node blocks page.now.contents id)) }
{
    for block in ids {
        paint_lines(alloc, page, *block, items)?;
    }
    Ok(())
}

// Appends what lies on the lines of a node: the content of a replaced one, else its pieces line by line.
#[cycle(walks)]
fn paint_lines(
    alloc: Global,
    page: &Page,
    id: u32,
    items: &mut Vec<Item>,
) -> Result<(), OutOfMemory>
    requires valid { IsValid page.now.contents }
    requires there { IsTrue (has_id page.now.contents id) }
    ensures { IfOk result (λ _. items.new.items ≡ items.old.items ++ of_node lines page.now.contents id) }
{
    let node = read(page, id);
    if is_replaced(node.kind) {
        return push_content(page, id, items);
    }
    let parts = line_parts(alloc, page, id)?;
    paint_parts(alloc, page, id, &parts, items)
}

// Appends the pieces of the lines of a node.
#[cycle(walks)]
fn paint_parts(
    alloc: Global,
    page: &Page,
    id: u32,
    parts: &[LinePart],
    items: &mut Vec<Item>,
) -> Result<(), OutOfMemory>
    requires valid { IsValid page.now.contents }
    requires there { IsTrue (has_id page.now.contents id) }
    requires parts { parts.now ≡ map part_of (of_node line_pieces page.now.contents id) }
    ensures { IfOk result (λ _. items.new.items ≡ items.old.items ++ flat_map (painted_piece flat) (of_node line_pieces page.now.contents id)) }
{
    for part in parts {
        match part.what {
            Painted::OneBox { item } => items.push(item)?,
            Painted::Whole { node } => paint_flat(alloc, page, node, items)?,
        }
    }
    Ok(())
}
