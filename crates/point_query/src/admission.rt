// Which items are admitted at a point of the viewport, and what element each of them belongs to.
ghost use Rattle.std.specs.Prelude.{◌≡◌, ◌+◌, ◌≤◌, ◌∷◌, [], ◌^◌, slice_get, IsTrue, IfSome, false};
ghost use Rattle.std.specs.Option.{option_map_or, option_to_list};
ghost use Rattle.corner_shapes.specs.Held.{in_rounded};
ghost use Rattle.affine.specs.Function.{AreWithin};
ghost use Rattle.computed_style.specs.Ranges.{IsSide};
ghost use Rattle.box_tree.specs.Contents.{IsWithin};
ghost use Rattle.box_tree.specs.Forms.{IsFormInRange};
ghost use Rattle.box_tree.specs.Kept.{label_of};
ghost use Rattle.spaces.specs.Table.{IsTableOf};
ghost use Rattle.scroll_clip.specs.Curves.{border_curve, padding_curve, HasCurvesInRange};
ghost use Rattle.point_query.specs.Bound.{member_bound};
ghost use Rattle.point_query.specs.Elements.{elements_of, part_admits};

use crate::areas::element_of;
use crate::outlines::outline_admits;
use box_tree::{Item, Node, Page, Part};
use computed_style::{Inherited, admits_box};
use fractions::{Ledger, Steps};
use scroll_clip::{border_curve, inside_clips, padding_curve};
use spaces::{FinePoint, SpaceTable};

// The element of an item, where the item is admitted at a point of the viewport, by the table of the page. Of the steps that
// the item may take it leaves two: that in which its number is read in a cell, and that in which its number names it.
pub(crate) fn admitted_element<L: Ledger>(
    page: &Page,
    spaces: &SpaceTable,
    item: Item,
    x: i64,
    y: i64,
    steps: &mut Steps<L>,
) -> Option<u32>
    requires table { IsTableOf spaces.now page.now.contents }
    requires x { IsWithin 20 x }
    requires y { IsWithin 20 y }
    ensures element { option_to_list result ≡ elements_of page.now.contents x y (item ∷ []) }
    ensures cost { steps.new + 2 ≤ steps.old + member_bound page.now.contents item }
    ensures counts { steps.old ≤ steps.new }
{
    if !page.has(item.node) {
        return None;
    }
    page.validity();
    let at = spaces.local_point(item.node, x, y, steps)?;
    let values = spaces.values_of(item.node, steps);
    let node = page.node(item.node, steps);
    if !part_admits(node, values, at, item.part) {
        return None;
    }
    if !inside_clips(page, spaces, item.node, x, y, steps) {
        return None;
    }
    Some(element_of(page, node, at, steps))
}

// Whether a part of a node is admitted at its local point: its area holds the point, and its values let it be a target.
fn part_admits(node: &Node, values: &Inherited, at: FinePoint, part: Part) -> bool
    requires curves { HasCurvesInRange (label_of node.now) }
    requires form { IfSome node.now.form IsFormInRange }
    requires width { IsSide 26 values.now.stroke_width }
    requires at { AreWithin (2 ^ 122) at.x at.y }
    ensures { result ≡ part_admits (label_of node.now) values.now at part }
{
    match part {
        Part::Box { place } => { admits_box(values) && some_box_holds(node, place, at) }
        Part::Content => admits_box(values) && content_holds(node, at),
        Part::Outline => outline_admits(node, values, at),
    }
}

// Whether the box of a node at a place among its boxes holds a point, where there is one: its rounded border box.
fn some_box_holds(node: &Node, place: u32, at: FinePoint) -> bool
    requires { HasCurvesInRange (label_of node.now) }
    ensures { result ≡ option_map_or (λ box. in_rounded (border_curve (label_of node.now) box) at.x at.y) (slice_get node.now.boxes place) false }
{
    match node.boxes.as_slice().get(place as usize) {
        Some(piece) => border_curve(node, piece).holds(at.x, at.y),
        None => false,
    }
}

// Whether the content of a node holds a point: the padding curve of its first box, where there is one.
fn content_holds(node: &Node, at: FinePoint) -> bool
    requires { HasCurvesInRange (label_of node.now) }
    ensures { result ≡ option_map_or (λ box. in_rounded (padding_curve (label_of node.now) box) at.x at.y) (slice_get node.now.boxes 0) false }
{
    match node.boxes.as_slice().first() {
        Some(piece) => padding_curve(node, piece).holds(at.x, at.y),
        None => false,
    }
}
