ghost use Rattle.std.specs.Prelude.{◌≡◌, ◌++◌, ◌∷◌, [], IsTrue, IfOk, if◌then◌else◌};
ghost use Rattle.box_tree.specs.Contents.{IsValid, has_id};
ghost use Rattle.stacking.specs.Painting.{blocks, floats};
ghost use Rattle.stacking.specs.OnPage.{of_node, ids_of, gathered, block_ids, float_ids};

use crate::memory::OutOfMemory;
use crate::reading::read;
use crate::roles::{is_block, is_entered, is_float, is_replaced};
use box_tree::Page;
use std::alloc::Global;

/// What the walk of a node meets, by ids: the blocks, and the floats.
#[derive(Drop)]
pub(crate) struct Reached {
    pub blocks: Vec<u32>,
    pub floats: Vec<u32>,
}

// The blocks and the floats that the walk of a node meets, in tree order.
pub(crate) fn reached_from(alloc: Global, page: &Page, id: u32) -> Result<Reached, OutOfMemory>
    requires valid { IsValid page.now.contents }
    requires there { IsTrue (has_id page.now.contents id) }
    ensures blocks { IfOk result (λ r. r.blocks.items ≡ ids_of (of_node blocks page.now.contents id)) }
    ensures floats { IfOk result (λ r. r.floats.items ≡ ids_of (of_node floats page.now.contents id)) }
{
    let mut blocks = Vec::new(alloc);
    let mut floats = Vec::new(alloc);
    if !is_replaced(read(page, id).kind) {
        meet_below(page, id, &mut blocks, &mut floats)?;
    }
    Ok(Reached { blocks, floats })
}

// Appends the blocks and the floats that are reached from the children of a node.
fn meet_below(
    page: &Page,
    id: u32,
    blocks: &mut Vec<u32>,
    floats: &mut Vec<u32>,
) -> Result<(), OutOfMemory>
    requires valid { IsValid page.now.contents }
    requires there { IsTrue (has_id page.now.contents id) }
    ensures blocks { IfOk result (λ _. blocks.new.items ≡ blocks.old.items ++ gathered block_ids page.now.contents id) }
    ensures floats { IfOk result (λ _. floats.new.items ≡ floats.old.items ++ gathered float_ids page.now.contents id) }
{
    let node = read(page, id);
    for child in node.children.as_slice() {
        let inner = read(page, *child);
        push_if(blocks, *child, is_block(Some(node), inner))?;
        push_if(floats, *child, is_float(Some(node), inner))?;
        if is_entered(Some(node), inner) {
            meet_below(page, *child, blocks, floats)?;
        }
    }
    Ok(())
}

// Appends an id where it is one of those that are sought.
fn push_if(ids: &mut Vec<u32>, id: u32, is_sought: bool) -> Result<(), OutOfMemory>
    ensures { IfOk result (λ _. ids.new.items ≡ ids.old.items ++ (if is_sought then id ∷ [] else [])) }
{
    if is_sought {
        ids.push(id)?;
    }
    Ok(())
}
