// Where the items of a page stand in its viewport.
ghost use Rattle.std.specs.Prelude.{◌≡◌, ◌≤ℤ◌, ◌≤◌, ◌^◌, IfSome, IsSome, slice_get, unsigned_abs};
ghost use Rattle.std.specs.Option.{option_map, option_map_or, option_and_then};
ghost use Rattle.affine.specs.Hull.{no_rect};
ghost use Rattle.poly_shapes.specs.Extent.{AreSidesWithin};
ghost use Rattle.svg_shapes.specs.Shapes.{IsMeasured, shape_bounds};
ghost use Rattle.computed_style.specs.Ranges.{IsSide};
ghost use Rattle.box_tree.specs.Contents.{IsBoxInRange, IsViewport};
ghost use Rattle.box_tree.specs.Forms.{IsFormInRange};
ghost use Rattle.box_tree.specs.Kept.{label_of};
ghost use Rattle.spatial_index.specs.Cells.{IsEmptyOrInside};
ghost use Rattle.spaces.specs.Sizes.{HasNumbersInRange};
ghost use Rattle.spaces.specs.Table.{entry_of, new_entry, IsTableOf};
ghost use Rattle.tree_edits.specs.Bounds.{box_rect, unit_at, units_around, shape_in, part_rect, viewport_rect, bounds_in, view_bounds};
ghost use Rattle.tree_edits.specs.Cells.{region_of};

use affine::{Map, hull, is_singular};
use box_tree::{Form, Item, Node, Page, Part, Piece, Viewport};
use computed_style::Inherited;
use fractions::{Ledger, Rect, Steps};
use spaces::{SpaceChange, SpaceTable};
use svg_shapes::{Bounds, Shape};

// The bounds of what stands nowhere.
pub(crate) const NOWHERE: Rect = Rect {
    l: 0,
    t: 0,
    r: 0,
    b: 0,
};

/// The bounds of an item of a page, by the table of its spaces: four zeros where it stands nowhere in the viewport.
pub(crate) fn item_bounds<L: Ledger>(
    page: &Page,
    spaces: &SpaceTable,
    item: Item,
    steps: &mut Steps<L>,
) -> Rect
    requires { IsTableOf spaces.now page.now.contents }
    ensures bounds { result ≡ view_bounds page.now.contents item }
    ensures inside { IsEmptyOrInside (region_of page.now.contents.viewport) result }
{
    page.validity();
    let Some(space) = spaces.space_of(item.node, steps) else {
        return NOWHERE;
    };
    let values = spaces.values_of(item.node, steps);
    let node = page.node(item.node, steps);
    node_bounds(&page.viewport(), space, node, values, item.part)
}

/// The same for an item of a node whose new entry is among those of a change.
pub(crate) fn renewed_bounds<L: Ledger>(
    page: &Page,
    change: &SpaceChange,
    item: Item,
    steps: &mut Steps<L>,
) -> Rect
    requires renewed { new_entry change.now item.node ≡ entry_of page.now.contents item.node }
    requires there { IsSome (new_entry change.now item.node) }
    ensures bounds { result ≡ view_bounds page.now.contents item }
    ensures inside { IsEmptyOrInside (region_of page.now.contents.viewport) result }
{
    page.validity();
    let Some(space) = change.space_of(item.node) else {
        return NOWHERE;
    };
    let values = change.values_of(item.node);
    let node = page.node(item.node, steps);
    node_bounds(&page.viewport(), space, node, values, item.part)
}

// The bounds of a part of a node in its space.
fn node_bounds(
    viewport: &Viewport,
    space: &Map,
    node: &Node,
    values: &Inherited,
    part: Part,
) -> Rect
    requires viewport { IsViewport viewport.now }
    requires node { HasNumbersInRange (label_of node.now) }
    requires width { IsSide 26 values.now.stroke_width }
    ensures { result ≡ option_map_or (bounds_in viewport.now space.now) (part_rect (label_of node.now) values.now part) no_rect }
{
    match part_rect(node, values, part) {
        Some(rect) => bounds_in(viewport, space, &rect),
        None => NOWHERE,
    }
}

// The bounds of a rectangle in a space.
fn bounds_in(viewport: &Viewport, space: &Map, rect: &Rect) -> Rect
    requires viewport { IsViewport viewport.now }
    requires across { rect.now.l ≤ℤ rect.now.r }
    requires down { rect.now.t ≤ℤ rect.now.b }
    ensures { result ≡ bounds_in viewport.now space.now rect.now }
{
    if is_singular(space) {
        NOWHERE
    } else {
        hull(space, rect, &viewport_rect(viewport))
    }
}

// The whole points of the viewport, on its right and lower edges too.
fn viewport_rect(viewport: &Viewport) -> Rect
    requires { IsViewport viewport.now }
    ensures { result ≡ viewport_rect viewport.now }
{
    Rect {
        l: 0,
        t: 0,
        r: viewport.w + 1,
        b: viewport.h + 1,
    }
}

// The rectangle of a part of a node in its own space, where it has one.
fn part_rect(node: &Node, values: &Inherited, part: Part) -> Option<Rect>
    requires node { HasNumbersInRange (label_of node.now) }
    requires width { IsSide 26 values.now.stroke_width }
    ensures rect { result ≡ part_rect (label_of node.now) values.now part }
    ensures across { IfSome result (λ rect. rect.l ≤ℤ rect.r) }
    ensures down { IfSome result (λ rect. rect.t ≤ℤ rect.b) }
{
    match part {
        Part::Box { place } => rect_at(node, place),
        Part::Content => rect_at(node, 0),
        Part::Outline => outline_rect(&node.form, values),
    }
}

// The rectangle of the box of a node at a place among its boxes, where there is one.
fn rect_at(node: &Node, place: u32) -> Option<Rect>
    requires { HasNumbersInRange (label_of node.now) }
    ensures rect { result ≡ option_map box_rect (slice_get node.now.boxes place) }
    ensures across { IfSome result (λ rect. rect.l ≤ℤ rect.r) }
    ensures down { IfSome result (λ rect. rect.t ≤ℤ rect.b) }
{
    match node.boxes.as_slice().get(place as usize) {
        Some(piece) => Some(box_rect(piece)),
        None => None,
    }
}

// A box as a rectangle.
fn box_rect(piece: &Piece) -> Rect
    requires { IsBoxInRange piece.now }
    ensures rect { result ≡ box_rect piece.now }
    ensures across { result.l ≤ℤ result.r }
    ensures down { result.t ≤ℤ result.b }
{
    Rect {
        l: piece.l,
        t: piece.t,
        r: piece.l + piece.w,
        b: piece.t + piece.h,
    }
}

// The rectangle round an outline, where the form is one that has bounds.
fn outline_rect(form: &Option<Form>, values: &Inherited) -> Option<Rect>
    requires form { IfSome form.now IsFormInRange }
    requires width { IsSide 26 values.now.stroke_width }
    ensures rect { result ≡ option_map units_around (option_and_then (λ shape. shape_bounds shape (unsigned_abs values.now.stroke_width)) (shape_in form.now)) }
    ensures across { IfSome result (λ rect. rect.l ≤ℤ rect.r) }
    ensures down { IfSome result (λ rect. rect.t ≤ℤ rect.b) }
{
    match form {
        Some(Form::Outline(shape)) => shape_rect(shape, values.stroke_width),
        Some(Form::Cover(_) | Form::View(_) | Form::Port(_) | Form::MapName(_)) | None => None,
    }
}

// The rectangle round a shape at the width of its stroke, where it has bounds.
fn shape_rect(shape: &Shape, width: i64) -> Option<Rect>
    requires shape { IsMeasured shape.now }
    requires width { IsSide 26 width }
    ensures rect { result ≡ option_map units_around (shape_bounds shape.now (unsigned_abs width)) }
    ensures across { IfSome result (λ rect. rect.l ≤ℤ rect.r) }
    ensures down { IfSome result (λ rect. rect.t ≤ℤ rect.b) }
{
    match shape.bounds(width) {
        Some(bounds) => Some(units_around(&bounds)),
        None => None,
    }
}

// The least half open rectangle of whole units that holds bounds in fine units, with their edges.
fn units_around(bounds: &Bounds) -> Rect
    requires sides { AreSidesWithin (2 ^ 28) bounds.now }
    requires across { bounds.now.l ≤ℤ bounds.now.r }
    requires down { bounds.now.t ≤ℤ bounds.now.b }
    ensures rect { result ≡ units_around bounds.now }
    ensures across { result.l ≤ℤ result.r }
    ensures down { result.t ≤ℤ result.b }
{
    Rect {
        l: unit_at(bounds.l),
        t: unit_at(bounds.t),
        r: unit_at(bounds.r) + 1,
        b: unit_at(bounds.b) + 1,
    }
}

// The unit that a number of fine units lies in, of which 64 are a unit.
fn unit_at(fine: i64) -> i64
    requires { unsigned_abs fine ≤ 2 ^ 28 }
    ensures unit { result ≡ unit_at fine }
    ensures size { unsigned_abs result ≤ 2 ^ 28 }
{
    fine.div_euclid(64)
}
