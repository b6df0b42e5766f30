// The element of an item, and the area of an image map in the place of its image.
ghost use Rattle.std.specs.Prelude.{◌≡◌, ◌+◌, ◌≤◌, ◌<◌, ◌^◌, length, unsigned_abs};
ghost use Rattle.computed_style.specs.Ranges.{IsSide};
ghost use Rattle.box_tree.specs.Contents.{IsWithin, IsBoxInRange};
ghost use Rattle.box_tree.specs.Covers.{areas_of};
ghost use Rattle.box_tree.specs.Forest.{roots_of};
ghost use Rattle.box_tree.specs.Kept.{label_of};
ghost use Rattle.scroll_clip.specs.Curves.{HasCurvesInRange};
ghost use Rattle.point_query.specs.Bound.{areas_named};
ghost use Rattle.point_query.specs.Elements.{element_as};
ghost use Rattle.point_query.specs.ImageMaps.{map_named, past_border, area_in, area_at};

use box_tree::{Form, Kind, Node, Page, Piece};
use fractions::{Ledger, Steps};
use scroll_clip::padding_curve;
use spaces::{FinePoint, left_border, top_border};

// The element of an item of a node at its local point: the node; for a text its parent, and for an image the area in its
// place, where there is one.
pub(crate) fn element_of<L: Ledger>(
    page: &Page,
    node: &Node,
    at: FinePoint,
    steps: &mut Steps<L>,
) -> u32
    requires { HasCurvesInRange (label_of node.now) }
    ensures element { result ≡ element_as node.now.kind node.now.parent node.now.id (area_at page.now.contents (label_of node.now) at) }
    ensures cost { steps.new ≤ steps.old + areas_named page.now.contents node.now.form }
    ensures counts { steps.old ≤ steps.new }
{
    match node.kind {
        Kind::Image => area_at(page, node, at, steps).unwrap_or(node.id),
        Kind::Text => node.parent,
        Kind::Block
        | Kind::Inline
        | Kind::InlineBlock
        | Kind::Svg
        | Kind::Map
        | Kind::Area
        | Kind::Group
        | Kind::Shape
        | Kind::Inner => node.id,
    }
}

// The area at a local point of an image that has a box and names a map.
fn area_at<L: Ledger>(page: &Page, node: &Node, at: FinePoint, steps: &mut Steps<L>) -> Option<u32>
    requires { HasCurvesInRange (label_of node.now) }
    ensures area { result ≡ area_at page.now.contents (label_of node.now) at }
    ensures cost { steps.new ≤ steps.old + areas_named page.now.contents node.now.form }
    ensures counts { steps.old ≤ steps.new }
{
    let piece = node.boxes.as_slice().first()?;
    let map = map_named(&node.form)?;
    area_in(page, node, piece, map, at, steps)
}

// The map that an image names.
fn map_named(form: &Option<Form>) -> Option<u32>
    ensures { result ≡ map_named form.now }
{
    match form {
        Some(Form::MapName(map)) => Some(*map),
        Some(Form::Outline(_) | Form::Cover(_) | Form::View(_) | Form::Port(_)) | None => None,
    }
}

// The first area of a map that covers a local point, where the padding curve of the image holds it.
fn area_in<L: Ledger>(
    page: &Page,
    node: &Node,
    piece: &Piece,
    map: u32,
    at: FinePoint,
    steps: &mut Steps<L>,
) -> Option<u32>
    requires node { HasCurvesInRange (label_of node.now) }
    requires piece { IsBoxInRange piece.now }
    ensures area { result ≡ area_in page.now.contents (label_of node.now) piece.now map at }
    ensures cost { steps.new ≤ steps.old + length (roots_of (areas_of page.now.contents map)) }
    ensures counts { steps.old ≤ steps.new }
{
    if !padding_curve(node, piece).holds(at.x, at.y) {
        return None;
    }
    let x = past_border(piece.l, left_border(node), at.x);
    let y = past_border(piece.t, top_border(node), at.y);
    page.first_cover(map, x, y, steps)
}

// A coordinate in fine units that is counted from an edge of a box with the border there.
fn past_border(edge: i64, border: i64, at: i128) -> i128
    requires edge { IsWithin 26 edge }
    requires border { IsSide 20 border }
    requires at { unsigned_abs at ≤ 2 ^ 35 }
    ensures place { result ≡ past_border edge border at }
    ensures size { unsigned_abs result < 2 ^ 123 }
{
    at - i128::from(64 * (edge + border))
}
