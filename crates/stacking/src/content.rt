ghost use Rattle.std.specs.Prelude.{◌≡◌, ◌++◌, IsTrue, IfOk};
ghost use Rattle.box_tree.specs.Contents.{IsValid, has_id};
ghost use Rattle.box_tree.specs.Kept.{label_of};
ghost use Rattle.stacking.specs.Painting.{drawn, content};
ghost use Rattle.stacking.specs.OnPage.{of_node, gathered, outlines_of};

use crate::memory::OutOfMemory;
use crate::reading::read;
use box_tree::{Item, Kind, Node, Page, Part};

// Appends the content of a node: the picture of an image, and the outlines of the shapes in an svg.
pub(crate) fn push_content(page: &Page, id: u32, items: &mut Vec<Item>) -> Result<(), OutOfMemory>
    requires valid { IsValid page.now.contents }
    requires there { IsTrue (has_id page.now.contents id) }
    ensures { IfOk result (λ _. items.new.items ≡ items.old.items ++ of_node content page.now.contents id) }
{
    let node = read(page, id);
    match node.kind {
        Kind::Image => push_drawn(node, items),
        Kind::Svg => push_outlines(page, id, items),
        Kind::Block
        | Kind::Inline
        | Kind::InlineBlock
        | Kind::Text
        | Kind::Map
        | Kind::Area
        | Kind::Group
        | Kind::Shape
        | Kind::Inner => Ok(()),
    }
}

// Appends the outlines of the shapes of SVG content below a node, in tree order.
fn push_outlines(page: &Page, id: u32, items: &mut Vec<Item>) -> Result<(), OutOfMemory>
    requires valid { IsValid page.now.contents }
    requires there { IsTrue (has_id page.now.contents id) }
    ensures { IfOk result (λ _. items.new.items ≡ items.old.items ++ gathered outlines_of page.now.contents id) }
{
    let node = read(page, id);
    for child in node.children.as_slice() {
        let inner = read(page, *child);
        if inner.kind.is_svg_content() {
            push_drawn(inner, items)?;
            push_outlines(page, *child, items)?;
        }
    }
    Ok(())
}

// Appends what a node is drawn as beside its boxes: the picture of an image that has a box, and the outline of a shape.
fn push_drawn(node: &Node, items: &mut Vec<Item>) -> Result<(), OutOfMemory>
    ensures { IfOk result (λ _. items.new.items ≡ items.old.items ++ drawn (label_of node.now)) }
{
    let part = match node.kind {
        Kind::Image if !node.boxes.as_slice().is_empty() => Part::Content,
        Kind::Shape => Part::Outline,
        _ => return Ok(()),
    };
    items.push(Item {
        node: node.id,
        part,
    })?;
    Ok(())
}
