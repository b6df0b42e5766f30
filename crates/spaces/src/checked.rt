// Products on the way to a space, and none once one of them passes the bound.
ghost use Rattle.std.specs.Prelude.{◌≡◌, All, map};
ghost use Rattle.std.specs.Option.{option_map, option_copied, option_to_list};
ghost use Rattle.affine.specs.Function.{function_map};
ghost use Rattle.computed_style.specs.Ranges.{IsFunctionInRange};
ghost use Rattle.box_tree.specs.Contents.{node_of};
ghost use Rattle.box_tree.specs.Kept.{label_of};
ghost use Rattle.spaces.specs.Spaces.{inner_factors, view_factor, transform_around, doubled_origin, own_factors};
ghost use Rattle.spaces.specs.Checked.{after_view, then_product, checked_products};
ghost use Rattle.spaces.specs.Sizes.{HasNumbersInRange, IsOriginInRange};

use crate::factors::{
    doubled_origin, from_origin, moving_by, padding_corner, scroll_factor, to_origin,
};
use crate::views::view_of;
use affine::{Map, compose, matrix};
use box_tree::{Node, Page, has_acting_transform};
use computed_style::{Function, Functions};
use fractions::{Ledger, Spot, Steps};
use view_boxes::ViewMap;

// The factors of a containing block after a map: its padding corner, where it has a box, its scroll, where it clips, and its
// viewBox.
pub(crate) fn inner(space: Option<Map>, parent: Option<&Node>, node: &Node) -> Option<Map>
    requires { HasNumbersInRange (label_of node.now) }
    ensures { result ≡ checked_products space (inner_factors (option_map label_of (option_copied parent.entry)) (label_of node.now)) }
{
    let cornered = some_product(space, padding_corner(node));
    let scrolled = some_product(cornered, scroll_factor(parent, node));
    viewed(scrolled, node)
}

// The map of the viewBox of a node after a map, where it makes a viewport whose rendering isn't disabled.
fn viewed(space: Option<Map>, node: &Node) -> Option<Map>
    requires { HasNumbersInRange (label_of node.now) }
    ensures { result ≡ checked_products space (view_factor (label_of node.now)) }
{
    match view_of(node) {
        Some(view) => after_view(space, &view),
        None => space,
    }
}

// What a viewport answers, after a map.
fn after_view(space: Option<Map>, view: &ViewMap) -> Option<Map>
    ensures { result ≡ after_view space view.now }
{
    if view.is_disabled() {
        return space;
    }
    match view.map() {
        Some(map) => product(space, &map),
        None => None,
    }
}

// One factor more, where there is one.
fn some_product(outer: Option<Map>, factor: Option<Map>) -> Option<Map>
    ensures { result ≡ checked_products outer (option_to_list factor) }
{
    match factor {
        Some(factor) => product(outer, &factor),
        None => outer,
    }
}

// The node of an id, where it is in the page.
pub(crate) fn find<'a, L: Ledger>(page: &'a Page, id: u32, steps: &mut Steps<L>) -> Option<&'a Node>
    ensures { option_copied result ≡ node_of page.now.contents id }
{
    if page.has(id) {
        Some(page.node(id, steps))
    } else {
        None
    }
}

// The factors of a node itself after a map.
pub(crate) fn own(around: Option<Map>, parent: Option<&Node>, node: &Node) -> Option<Map>
    requires { HasNumbersInRange (label_of node.now) }
    ensures { result ≡ checked_products around (own_factors (option_map label_of (option_copied parent.entry)) (label_of node.now)) }
{
    if has_acting_transform(parent, node) {
        transformed(around, node, doubled_origin(node))
    } else {
        product(around, &moving_by(node.anchor))
    }
}

// The factors of the transform of a node after a map, around an origin that is given twice.
fn transformed(around: Option<Map>, node: &Node, doubled: Spot) -> Option<Map>
    requires numbers { HasNumbersInRange (label_of node.now) }
    requires origin { IsOriginInRange doubled }
    ensures { result ≡ checked_products around (transform_around (label_of node.now) doubled) }
{
    let moved = product(around, &to_origin(node.anchor, doubled));
    let turned = after_functions(moved, &node.style.transform);
    product(turned, &from_origin(doubled))
}

// A map and then these functions in their order.
fn after_functions(start: Option<Map>, functions: &Functions) -> Option<Map>
    requires { All IsFunctionInRange functions.now }
    ensures { result ≡ checked_products start (map function_map functions.now) }
{
    let mut all = start;
    for function in &functions.0 {
        all = product(all, &map_of(function));
    }
    all
}

// The map of a function whose numbers are in the ranges of a style.
fn map_of(function: &Function) -> Map
    requires { IsFunctionInRange function.now }
    ensures { result ≡ function_map function.now }
{
    matrix(function)
}

// One map more, where there is a product and the next one is within the bound.
fn product(outer: Option<Map>, inner: &Map) -> Option<Map>
    ensures { result ≡ then_product outer inner.now }
{
    let _within = inner.parts();
    match outer {
        Some(outer) => compose(&outer, inner),
        None => None,
    }
}
