ghost use Rattle.std.specs.Prelude.{◌≡◌, ◌++◌, ◌≤◌, ◌<◌, ◌^◌, length, IfOk, if◌then◌else◌, [], IsTrue};
ghost use Rattle.box_tree.specs.Contents.{IsValid, has_id};
ghost use Rattle.stacking.specs.Painting.{box_items, head, own};
ghost use Rattle.stacking.specs.OnPage.{of_node};

use crate::memory::OutOfMemory;
use crate::reading::{parent_in, read};
use crate::roles::has_head;
use box_tree::{Item, Node, Page, Part};

// The item of a box of a node, by its place.
pub(crate) fn box_item(node: u32, place: usize) -> Item
    requires { place < 2 ^ 32 }
    ensures { result ≡ record { node = node; part = Part.Box place } }
{
    Item {
        node,
        part: Part::Box {
            place: place as u32,
        },
    }
}

// Appends the boxes of a node.
fn push_boxes(node: &Node, items: &mut Vec<Item>) -> Result<(), OutOfMemory>
    requires { length node.now.boxes < 2 ^ 32 }
    ensures { IfOk result (λ _. items.new.items ≡ items.old.items ++ box_items node.now.id 0 node.now.boxes) }
{
    for (place, _) in node.boxes.as_slice().iter().enumerate() {
        items.push(box_item(node.id, place))?;
    }
    Ok(())
}

// Appends the boxes of the node of an id.
pub(crate) fn push_own(page: &Page, id: u32, items: &mut Vec<Item>) -> Result<(), OutOfMemory>
    requires valid { IsValid page.now.contents }
    requires there { IsTrue (has_id page.now.contents id) }
    ensures { IfOk result (λ _. items.new.items ≡ items.old.items ++ of_node own page.now.contents id) }
{
    push_boxes(read(page, id), items)
}

// Appends the boxes of a node, unless they lie on lines.
pub(crate) fn push_head(page: &Page, id: u32, items: &mut Vec<Item>) -> Result<(), OutOfMemory>
    requires valid { IsValid page.now.contents }
    requires there { IsTrue (has_id page.now.contents id) }
    ensures { IfOk result (λ _. items.new.items ≡ items.old.items ++ of_node head page.now.contents id) }
{
    let node = read(page, id);
    if has_head(parent_in(page, id), node) {
        push_boxes(node, items)?;
    }
    Ok(())
}
