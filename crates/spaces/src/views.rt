// The viewports that an svg and the svgs inside it make for their content.
ghost use Rattle.std.specs.Prelude.{◌≡◌, pos, ◌*ℤ◌};
ghost use Rattle.std.specs.List.{list_all};
ghost use Rattle.view_boxes.specs.Ranges.{IsPortInRange};
ghost use Rattle.view_boxes.specs.Views.{IsViewMap};
ghost use Rattle.box_tree.specs.declared.kind.Kind.TheVariants.{Svg, Inner};
ghost use Rattle.computed_style.specs.Ranges.{IsSide as IsWidth};
ghost use Rattle.box_tree.specs.Contents.{IsSide, IsValid};
ghost use Rattle.box_tree.specs.Edited.{ancestors_below};
ghost use Rattle.box_tree.specs.Kept.{label_of};
ghost use Rattle.spaces.specs.Spaces.{disables, is_laid_out, no_port, padding_side, port_of, shows, viewport_width, viewport_height};
ghost use Rattle.spaces.specs.Checked.{IsViewOf};
ghost use Rattle.spaces.specs.Sizes.{HasNumbersInRange};

use crate::factors::{bottom_border, first_box, left_border, right_border, top_border};
use box_tree::{Form, Kind, Node, Page};
use fractions::{Ledger, Steps};
use view_boxes::{Port, ViewMap, view_box};

// Whether the node of an id, where it is there, and its ancestors show what is in them.
pub(crate) fn all_show<L: Ledger>(page: &Page, id: u32, steps: &mut Steps<L>) -> bool
    requires { IsValid page.now.contents }
    ensures { result ≡ list_all shows (ancestors_below page.now.contents id) }
{
    if !page.has(id) {
        return true;
    }
    let node = page.node(id, steps);
    shows(node) && all_show(page, node.parent, steps)
}

// Whether what is in a node can have a space: the node is laid out, and the rendering of what is in it isn't disabled.
pub(crate) fn shows(node: &Node) -> bool
    requires { HasNumbersInRange (label_of node.now) }
    ensures { result ≡ shows (label_of node.now) }
{
    is_laid_out(node.kind) && !disables(node)
}

// Whether the rendering of what is in a node is disabled.
fn disables(node: &Node) -> bool
    requires { HasNumbersInRange (label_of node.now) }
    ensures { result ≡ disables (label_of node.now) }
{
    match view_of(node) {
        Some(view) => view.is_disabled(),
        None => false,
    }
}

// Whether a node of this kind is laid out.
pub(crate) fn is_laid_out(kind: Kind) -> bool
    ensures { result ≡ is_laid_out kind }
{
    match kind {
        Kind::Map | Kind::Area => false,
        Kind::Block
        | Kind::Inline
        | Kind::InlineBlock
        | Kind::Image
        | Kind::Svg
        | Kind::Text
        | Kind::Group
        | Kind::Shape
        | Kind::Inner => true,
    }
}

// What the viewport that a node makes answers, where it makes one.
pub(crate) fn view_of(node: &Node) -> Option<ViewMap>
    requires { HasNumbersInRange (label_of node.now) }
    ensures { IsViewOf (label_of node.now) result }
{
    match node.kind {
        Kind::Svg => Some(svg_view(node)),
        Kind::Inner => Some(inner_view(node)),
        Kind::Block
        | Kind::Inline
        | Kind::InlineBlock
        | Kind::Image
        | Kind::Text
        | Kind::Map
        | Kind::Area
        | Kind::Group
        | Kind::Shape => None,
    }
}

// What the viewport of an svg answers: its padding box.
fn svg_view(node: &Node) -> ViewMap
    requires numbers { HasNumbersInRange (label_of node.now) }
    requires kind { node.now.kind ≡ Svg }
    ensures { IsViewMap (viewport_width (label_of node.now)) (viewport_height (label_of node.now)) (port_of (label_of node.now)) result }
{
    let piece = first_box(node);
    let w = padding_side(piece.w, left_border(node), right_border(node));
    let h = padding_side(piece.h, top_border(node), bottom_border(node));
    view_box(w, h, &port_of(node))
}

// What the viewport of an svg inside an svg answers.
fn inner_view(node: &Node) -> ViewMap
    requires numbers { HasNumbersInRange (label_of node.now) }
    requires kind { node.now.kind ≡ Inner }
    ensures { IsViewMap (viewport_width (label_of node.now)) (viewport_height (label_of node.now)) (port_of (label_of node.now)) result }
{
    let port = port_of(node);
    view_box(port.w, port.h, &port)
}

// The place and the viewBox of the viewport that a node makes.
fn port_of(node: &Node) -> Port
    requires { HasNumbersInRange (label_of node.now) }
    ensures value { result ≡ port_of (label_of node.now) }
    ensures range { IsPortInRange result }
{
    match &node.form {
        Some(Form::View(view)) => Port {
            view: *view,
            ..no_port()
        },
        Some(Form::Port(port)) => *port,
        Some(Form::Outline(_) | Form::Cover(_) | Form::MapName(_)) | None => no_port(),
    }
}

// A viewport of sides 0.
fn no_port() -> Port
    ensures value { result ≡ no_port }
    ensures range { IsPortInRange result }
{
    Port {
        x: 0,
        y: 0,
        w: 0,
        h: 0,
        view: None,
    }
}

// A side of a padding box, in fine units.
fn padding_side(side: i64, first: i64, last: i64) -> i64
    requires side { IsSide 26 side }
    requires first { IsSide 20 first }
    requires last { IsSide 20 last }
    ensures value { result ≡ padding_side side first last }
    ensures range { IsWidth 32 result }
{
    let rest = side - first - last;
    in_fine_units(rest.max(0))
}

// Units in fine units.
fn in_fine_units(side: i64) -> i64
    requires { IsWidth 26 side }
    ensures value { result ≡ pos 64 *ℤ side }
    ensures range { IsWidth 32 result }
{
    64 * side
}
