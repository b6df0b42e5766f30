// What suits which kind of node, row by row as the tables of `specs/Suits.antt` have it.
ghost use Rattle.std.specs.Prelude.{◌≡◌, None};
ghost use Rattle.std.specs.Option.{option_copied};
ghost use Rattle.box_tree.specs.Suits.{is_flow as flows, is_map as names_map, is_area as names_area, may_hold as holds, box_count_suits as count_suits, takes_place as is_placed, takes_style as is_styled, takes_form as is_formed, takes_scroll as is_scrolled, style_suits as suits_style};
ghost use Rattle.box_tree.specs.SuitsBelow.{kind_suits_below, node_suits_below};

use crate::form::Form;
use crate::kind::Kind;
use crate::node::Node;
use crate::piece::PieceList;
use computed_style::Style;

// Whether a new node suits this parent, which is none for the root.
pub(crate) fn node_suits(
    parent: Option<&Node>,
    kind: Kind,
    style: &Style,
    boxes: &PieceList,
) -> bool
    ensures { result ≡ node_suits_below (option_copied parent.entry) kind style.now boxes.now }
{
    kind_suits(parent, kind)
        && (style_suits(kind, style) && box_count_suits(parent.is_none(), kind, boxes.0.len()))
}

// Whether a kind suits this parent: it may hold it, and the root holds no text.
pub(crate) fn kind_suits(parent: Option<&Node>, kind: Kind) -> bool
    ensures { result ≡ kind_suits_below (option_copied parent.entry) kind }
{
    match parent {
        Some(node) => may_hold(Some(node.kind), kind) && !(node.depth == 1 && kind.is_text()),
        None => may_hold(None, kind),
    }
}

// Which kinds a node of a kind may hold as its children; none holds the root.
fn may_hold(parent: Option<Kind>, child: Kind) -> bool
    ensures { result ≡ holds parent child }
{
    match parent {
        None => is_block(child),
        Some(Kind::Block | Kind::Inline | Kind::InlineBlock) => is_flow(child),
        Some(Kind::Svg | Kind::Group | Kind::Inner) => child.is_svg_content(),
        Some(Kind::Map) => is_area(child),
        Some(Kind::Image | Kind::Text | Kind::Area | Kind::Shape) => false,
    }
}

fn is_block(kind: Kind) -> bool
    ensures { result ≡ holds None kind }
{
    match kind {
        Kind::Block => true,
        Kind::Inline
        | Kind::InlineBlock
        | Kind::Image
        | Kind::Svg
        | Kind::Text
        | Kind::Map
        | Kind::Area
        | Kind::Group
        | Kind::Shape
        | Kind::Inner => false,
    }
}

// What may stand in a block or in a line.
fn is_flow(kind: Kind) -> bool
    ensures { result ≡ flows kind }
{
    match kind {
        Kind::Block
        | Kind::Inline
        | Kind::InlineBlock
        | Kind::Image
        | Kind::Svg
        | Kind::Text
        | Kind::Map => true,
        Kind::Area | Kind::Group | Kind::Shape | Kind::Inner => false,
    }
}

// An image map.
pub(crate) fn is_map(kind: Kind) -> bool
    ensures { result ≡ names_map kind }
{
    match kind {
        Kind::Map => true,
        Kind::Block
        | Kind::Inline
        | Kind::InlineBlock
        | Kind::Image
        | Kind::Svg
        | Kind::Text
        | Kind::Area
        | Kind::Group
        | Kind::Shape
        | Kind::Inner => false,
    }
}

fn is_area(kind: Kind) -> bool
    ensures { result ≡ names_area kind }
{
    match kind {
        Kind::Area => true,
        Kind::Block
        | Kind::Inline
        | Kind::InlineBlock
        | Kind::Image
        | Kind::Svg
        | Kind::Text
        | Kind::Map
        | Kind::Group
        | Kind::Shape
        | Kind::Inner => false,
    }
}

// Whether so many boxes suit the root, or another node of a kind.
pub(crate) fn box_count_suits(is_root: bool, kind: Kind, count: usize) -> bool
    ensures { result ≡ count_suits is_root kind count }
{
    if is_root {
        return count == 1;
    }
    match kind {
        Kind::Block | Kind::InlineBlock | Kind::Image | Kind::Svg => count <= 1,
        Kind::Inline | Kind::Text => true,
        Kind::Map | Kind::Area | Kind::Group | Kind::Shape | Kind::Inner => count == 0,
    }
}

// Whether a node of a kind may be placed.
pub(crate) fn takes_place(kind: Kind) -> bool
    ensures { result ≡ is_placed kind }
{
    match kind {
        Kind::Block | Kind::Inline | Kind::InlineBlock | Kind::Image | Kind::Svg | Kind::Text =>
            true,
        Kind::Map | Kind::Area | Kind::Group | Kind::Shape | Kind::Inner => false,
    }
}

// Whether a node of a kind may be given another style.
pub(crate) fn takes_style(kind: Kind) -> bool
    ensures { result ≡ is_styled kind }
{
    match kind {
        Kind::Block
        | Kind::Inline
        | Kind::InlineBlock
        | Kind::Image
        | Kind::Svg
        | Kind::Group
        | Kind::Shape
        | Kind::Inner => true,
        Kind::Text | Kind::Map | Kind::Area => false,
    }
}

// Whether a node of a kind may be given a form.
pub(crate) fn takes_form(kind: Kind, form: &Form) -> bool
    ensures { result ≡ is_formed kind form.now }
{
    match (kind, form) {
        (Kind::Image, Form::MapName(_)) => true,
        (Kind::Svg, Form::View(_)) => true,
        (Kind::Area, Form::Cover(_)) => true,
        (Kind::Shape, Form::Outline(_)) => true,
        (Kind::Inner, Form::Port(_)) => true,
        _ => false,
    }
}

// Whether a node of a kind may be scrolled.
pub(crate) fn takes_scroll(kind: Kind) -> bool
    ensures { result ≡ is_scrolled kind }
{
    match kind {
        Kind::Block | Kind::Inline | Kind::InlineBlock => true,
        Kind::Image
        | Kind::Svg
        | Kind::Text
        | Kind::Map
        | Kind::Area
        | Kind::Group
        | Kind::Shape
        | Kind::Inner => false,
    }
}

// With which style a node of a kind may be added.
fn style_suits(kind: Kind, style: &Style) -> bool
    ensures { result ≡ suits_style kind style.now }
{
    takes_style(kind) || style.is_empty()
}
