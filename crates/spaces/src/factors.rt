// The maps of which spaces are products.
ghost use Rattle.std.specs.Prelude.{◌≡◌, ◌≤◌, ◌^◌, pos, ◌+ℤ◌, ◌*ℤ◌, neg_ℤ, unsigned_abs};
ghost use Rattle.std.specs.Option.{option_map, option_copied, option_to_list};
ghost use Rattle.affine.specs.Map.{translation};
ghost use Rattle.box_tree.specs.Contents.{IsWithin, IsSide, IsSpotInRange, IsBoxInRange};
ghost use Rattle.box_tree.specs.Kept.{label_of};
ghost use Rattle.spaces.specs.Spaces.{top_border, right_border, bottom_border, left_border, moving_by, scrolled, padding_corner, scroll_factor, first_box, doubled_origin, outer_space};
ghost use Rattle.spaces.specs.Sizes.{HasNumbersInRange, IsOriginInRange};

use affine::{Map, identity, translate};
use box_tree::{Holder, Node, Piece, Viewport, is_block_container, is_clipping};
use fractions::Spot;

// The translation by a point.
pub(crate) fn moving_by(by: Spot) -> Map
    requires { IsSpotInRange by }
    ensures { result ≡ moving_by by }
{
    translate(by.x, by.y, 1)
}

// The space of the initial containing block: minus the scroll of the viewport.
pub(crate) fn scrolled(viewport: &Viewport) -> Map
    requires { IsSpotInRange viewport.now.scroll }
    ensures { result ≡ scrolled viewport.now }
{
    back_by(viewport.scroll)
}

// The space of a containing block that is no node: the viewport doesn't move, and the initial containing block scrolls with
// the page.
pub(crate) fn outer_space(viewport: &Viewport, holder: Holder) -> Map
    requires { IsSpotInRange viewport.now.scroll }
    ensures { result ≡ outer_space viewport.now holder }
{
    match holder {
        Holder::Initial => scrolled(viewport),
        Holder::Viewport | Holder::Node { .. } => identity(),
    }
}

// The translation by minus a scroll.
fn back_by(scroll: Spot) -> Map
    requires { IsSpotInRange scroll }
    ensures { result ≡ translation (neg_ℤ scroll.x) (neg_ℤ scroll.y) (pos 1) }
{
    translate(-scroll.x, -scroll.y, 1)
}

// The translation by minus the scroll of a node, where it clips and is a block container.
pub(crate) fn scroll_factor(parent: Option<&Node>, node: &Node) -> Option<Map>
    requires { HasNumbersInRange (label_of node.now) }
    ensures { option_to_list result ≡ scroll_factor (option_map label_of (option_copied parent.entry)) (label_of node.now) }
{
    if is_clipping(parent, node) && is_block_container(parent, node) {
        Some(back_by(node.scroll))
    } else {
        None
    }
}

// The translation to the padding corner of a node, where it has a box: the corner of its first box, with the left and
// the top border.
pub(crate) fn padding_corner(node: &Node) -> Option<Map>
    requires { HasNumbersInRange (label_of node.now) }
    ensures { option_to_list result ≡ padding_corner (label_of node.now) }
{
    if node.boxes.as_slice().is_empty() {
        return None;
    }
    let piece = first_box(node);
    let x = past_border(piece.l, left_border(node));
    let y = past_border(piece.t, top_border(node));
    Some(translate(x, y, 1))
}

// An edge of a box with the width of a border.
fn past_border(edge: i64, width: i64) -> i64
    requires edge { IsWithin 26 edge }
    requires width { IsSide 20 width }
    ensures value { result ≡ edge +ℤ width }
    ensures size { unsigned_abs result ≤ 2 ^ 40 }
{
    edge + width
}

// The translation of a transformed node by its anchor and by the origin of its transform, which is given twice.
pub(crate) fn to_origin(anchor: Spot, doubled: Spot) -> Map
    requires anchor { IsSpotInRange anchor }
    requires origin { IsOriginInRange doubled }
    ensures { result ≡ translation (pos 2 *ℤ anchor.x +ℤ doubled.x) (pos 2 *ℤ anchor.y +ℤ doubled.y) (pos 2) }
{
    let x = doubled_sum(anchor.x, doubled.x);
    let y = doubled_sum(anchor.y, doubled.y);
    translate(x, y, 2)
}

// Twice a coordinate, and another that is given twice.
fn doubled_sum(coordinate: i64, doubled: i64) -> i64
    requires coordinate { IsWithin 26 coordinate }
    requires doubled { IsWithin 28 doubled }
    ensures value { result ≡ pos 2 *ℤ coordinate +ℤ doubled }
    ensures size { unsigned_abs result ≤ 2 ^ 40 }
{
    2 * coordinate + doubled
}

// The translation back by the origin of a transform, which is given twice.
pub(crate) fn from_origin(doubled: Spot) -> Map
    requires { IsOriginInRange doubled }
    ensures { result ≡ translation (neg_ℤ doubled.x) (neg_ℤ doubled.y) (pos 2) }
{
    translate(-doubled.x, -doubled.y, 2)
}

// Twice the origin of the transform of a node, in its own space: a centre can have half units.
pub(crate) fn doubled_origin(node: &Node) -> Spot
    requires { HasNumbersInRange (label_of node.now) }
    ensures origin { result ≡ doubled_origin node.now.style.origin (first_box node.now.boxes) }
    ensures range { IsOriginInRange result }
{
    let piece = first_box(node);
    match node.style.origin {
        Some((x, y)) => Spot {
            x: doubled_place(piece.l, x),
            y: doubled_place(piece.t, y),
        },
        None => Spot {
            x: doubled_middle(piece.l, piece.w),
            y: doubled_middle(piece.t, piece.h),
        },
    }
}

// Twice what is counted from an edge.
fn doubled_place(edge: i64, given: i64) -> i64
    requires edge { IsWithin 26 edge }
    requires given { IsWithin 26 given }
    ensures value { result ≡ pos 2 *ℤ (edge +ℤ given) }
    ensures range { IsWithin 28 result }
{
    2 * (edge + given)
}

// Twice the middle of a side from an edge on.
fn doubled_middle(edge: i64, side: i64) -> i64
    requires edge { IsWithin 26 edge }
    requires side { IsSide 26 side }
    ensures value { result ≡ pos 2 *ℤ edge +ℤ side }
    ensures range { IsWithin 28 result }
{
    2 * edge + side
}

// The first box of a node, and one of zeros where it has none.
pub(crate) fn first_box(node: &Node) -> Piece
    requires { HasNumbersInRange (label_of node.now) }
    ensures first { result ≡ first_box node.now.boxes }
    ensures range { IsBoxInRange result }
{
    match node.boxes.as_slice().first() {
        Some(piece) => *piece,
        None => Piece {
            line: 0,
            l: 0,
            t: 0,
            w: 0,
            h: 0,
        },
    }
}

/// The width of the top border, in units (CSS 2.2, 8.5.1).
pub fn top_border(node: &Node) -> i64
    ensures { result ≡ top_border (label_of node.now) }
{
    node.style.border[0]
}

/// The width of the right border, in units (CSS 2.2, 8.5.1).
pub fn right_border(node: &Node) -> i64
    ensures { result ≡ right_border (label_of node.now) }
{
    node.style.border[1]
}

/// The width of the bottom border, in units (CSS 2.2, 8.5.1).
pub fn bottom_border(node: &Node) -> i64
    ensures { result ≡ bottom_border (label_of node.now) }
{
    node.style.border[2]
}

/// The width of the left border, in units (CSS 2.2, 8.5.1).
pub fn left_border(node: &Node) -> i64
    ensures { result ≡ left_border (label_of node.now) }
{
    node.style.border[3]
}
