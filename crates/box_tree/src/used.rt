// The used values of a node, by its parent (none for the root) and itself.
ghost use Rattle.std.specs.Prelude.{◌≡◌, nat_lt, length};
ghost use Rattle.std.specs.Option.{option_map, option_copied};
ghost use Rattle.box_tree.specs.Kept.{label_of};
ghost use Rattle.box_tree.specs.Used.{cuts_off, has_box, may_float, makes_viewport, gives_port, takes_out, takes_offsets, is_fixed_at, position_as, is_block_level_as, is_block_container_as, is_atomic_as, may_make_context, has_context_style};
ghost use Rattle.box_tree.specs.Used.{used_position, is_taken_out, is_floating, is_block_level, is_block_container, is_atomic, is_transformed, has_acting_transform, is_clipping, is_positioned, is_real_context, stack_level, is_in_flow};

use crate::form::Form;
use crate::kind::Kind;
use crate::node::Node;
use computed_style::{Overflow, Position};

/// The position that counts: that of its style, and static for a text, for SVG content, for a map and for an area
/// (CSS 2.2, 9.3.1; SVG 2, 6.7).
pub fn used_position(node: &Node) -> Position
    ensures { result ≡ used_position (label_of node.now) }
{
    position_as(node.kind, node.style.position)
}

/// Whether a node is taken out of the flow: its position is absolute or fixed (CSS 2.2, 9.6).
pub fn is_taken_out(_parent: Option<&Node>, node: &Node) -> bool
    ensures { result ≡ is_taken_out (option_map label_of (option_copied _parent.entry)) (label_of node.now) }
{
    takes_out(used_position(node))
}

/// Whether a node floats: it is floated, and neither taken out nor the root nor SVG content (CSS 2.2, 9.7; SVG 2, 6.7).
pub fn is_floating(parent: Option<&Node>, node: &Node) -> bool
    ensures { result ≡ is_floating (option_map label_of (option_copied parent.entry)) (label_of node.now) }
{
    if parent.is_none() {
        return false;
    }
    may_float(node.kind) && (node.style.floats && !is_taken_out(parent, node))
}

/// Whether a node is block level: the root, a block, and what leaves the flow or is displayed so (CSS 2.2, 9.2.1 and 9.7).
pub fn is_block_level(parent: Option<&Node>, node: &Node) -> bool
    ensures { result ≡ is_block_level (option_map label_of (option_copied parent.entry)) (label_of node.now) }
{
    if parent.is_none() {
        return true;
    }
    let leaves = is_taken_out(parent, node) || is_floating(parent, node);
    is_block_level_as(node.kind, leaves, node.style.display_block)
}

/// Whether a node is a block container: a block, an inline-block or a block level inline (CSS 2.2, 9.2.1).
pub fn is_block_container(parent: Option<&Node>, node: &Node) -> bool
    ensures { result ≡ is_block_container (option_map label_of (option_copied parent.entry)) (label_of node.now) }
{
    is_block_container_as(node.kind, is_block_level(parent, node))
}

/// Whether a node is atomic: an inline-block, an image or an svg that isn't block level (CSS 2.2, 9.2.2).
pub fn is_atomic(parent: Option<&Node>, node: &Node) -> bool
    ensures { result ≡ is_atomic (option_map label_of (option_copied parent.entry)) (label_of node.now) }
{
    is_atomic_as(node.kind) && !is_block_level(parent, node)
}

/// Whether a node is transformed: it is block level or atomic, and its transform isn't none (CSS Transforms 1, 2 and 3).
pub fn is_transformed(parent: Option<&Node>, node: &Node) -> bool
    ensures { result ≡ is_transformed (option_map label_of (option_copied parent.entry)) (label_of node.now) }
{
    (is_block_level(parent, node) || is_atomic(parent, node)) && has_transform(node)
}

/// Whether the transform of a node acts on its space: it is transformed, or it is SVG content whose transform isn't none
/// (CSS Transforms 1, 2 and 3).
pub fn has_acting_transform(parent: Option<&Node>, node: &Node) -> bool
    ensures { result ≡ has_acting_transform (option_map label_of (option_copied parent.entry)) (label_of node.now) }
{
    is_transformed(parent, node) || (node.kind.is_svg_content() && has_transform(node))
}

/// Whether a node clips what it holds: its overflow isn't visible, it has a box (an inner svg its viewport), and it is an svg,
/// an inner svg or a block container other than the root (CSS 2.2, 11.1.1; SVG 2, 3.8).
pub fn is_clipping(parent: Option<&Node>, node: &Node) -> bool
    ensures { result ≡ is_clipping (option_map label_of (option_copied parent.entry)) (label_of node.now) }
{
    if parent.is_none() {
        return false;
    }
    let viewport = makes_viewport(node.kind);
    cuts_off(viewport, node.style.overflow)
        && ((has_box(node) || gives_port(&node.form))
            && (viewport || is_block_container(parent, node)))
}

/// Whether a node is positioned: its position isn't static (CSS 2.2, 9.3.2).
pub fn is_positioned(_parent: Option<&Node>, node: &Node) -> bool
    ensures { result ≡ is_positioned (option_map label_of (option_copied _parent.entry)) (label_of node.now) }
{
    takes_offsets(used_position(node))
}

/// Whether a node is a real stacking context: the root, and every other CSS node but a text that is fixed, positioned with
/// an integer z-index, not wholly opaque, or transformed (CSS 2.2, 9.9.1; CSS Color 3, 3.2; CSS Transforms 1, 3).
pub fn is_real_context(parent: Option<&Node>, node: &Node) -> bool
    ensures { result ≡ is_real_context (option_map label_of (option_copied parent.entry)) (label_of node.now) }
{
    if parent.is_none() {
        return true;
    }
    may_make_context(node.kind) && has_context_style(parent, node)
}

/// The level of a node in the stacking context around it: the z-index of a positioned node, and else 0 (CSS 2.2, 9.9.1).
pub fn stack_level(parent: Option<&Node>, node: &Node) -> i32
    ensures { result ≡ stack_level (option_map label_of (option_copied parent.entry)) (label_of node.now) }
{
    if is_positioned(parent, node) {
        node.style.z.unwrap_or(0)
    } else {
        0
    }
}

/// Whether a node is in flow: it neither floats nor is positioned nor is a real stacking context.
pub fn is_in_flow(parent: Option<&Node>, node: &Node) -> bool
    ensures { result ≡ is_in_flow (option_map label_of (option_copied parent.entry)) (label_of node.now) }
{
    !is_floating(parent, node) && (!is_positioned(parent, node) && !is_real_context(parent, node))
}

// The position that counts, by kind.
fn position_as(kind: Kind, position: Position) -> Position
    ensures { result ≡ position_as kind position }
{
    match kind {
        Kind::Block | Kind::Inline | Kind::InlineBlock | Kind::Image | Kind::Svg => position,
        Kind::Text | Kind::Map | Kind::Area | Kind::Group | Kind::Shape | Kind::Inner => {
            Position::Static
        }
    }
}

// Whether a node of this kind can float.
fn may_float(kind: Kind) -> bool
    ensures { result ≡ may_float kind }
{
    match kind {
        Kind::Block | Kind::Inline | Kind::InlineBlock | Kind::Image | Kind::Svg | Kind::Text =>
            true,
        Kind::Map | Kind::Area | Kind::Group | Kind::Shape | Kind::Inner => false,
    }
}

// Whether a node of this kind makes a viewport for what is in it.
fn makes_viewport(kind: Kind) -> bool
    ensures { result ≡ makes_viewport kind }
{
    match kind {
        Kind::Svg | Kind::Inner => true,
        Kind::Block
        | Kind::Inline
        | Kind::InlineBlock
        | Kind::Image
        | Kind::Text
        | Kind::Map
        | Kind::Area
        | Kind::Group
        | Kind::Shape => false,
    }
}

// Whether a position takes a node out of the flow.
fn takes_out(position: Position) -> bool
    ensures { result ≡ takes_out position }
{
    match position {
        Position::Static | Position::Relative => false,
        Position::Absolute | Position::Fixed => true,
    }
}

// Whether an overflow clips, where a viewport is made or not.
fn cuts_off(viewport: bool, overflow: Option<Overflow>) -> bool
    ensures { result ≡ cuts_off viewport overflow }
{
    match overflow {
        None => viewport,
        Some(Overflow::Visible) => false,
        Some(Overflow::Auto) => !viewport,
        Some(Overflow::Clip) => true,
    }
}

// Whether a node has a box.
fn has_box(node: &Node) -> bool
    ensures { result ≡ has_box (label_of node.now) }
{
    node.boxes.count() > 0
}

// Whether a form gives a viewport.
fn gives_port(form: &Option<Form>) -> bool
    ensures { result ≡ gives_port form.now }
{
    match form {
        Some(Form::Port(_)) => true,
        Some(Form::Outline(_) | Form::Cover(_) | Form::View(_) | Form::MapName(_)) | None => false,
    }
}

// Whether a position isn't static.
fn takes_offsets(position: Position) -> bool
    ensures { result ≡ takes_offsets position }
{
    match position {
        Position::Static => false,
        Position::Relative | Position::Absolute | Position::Fixed => true,
    }
}

// Whether a position is fixed.
fn is_fixed_at(position: Position) -> bool
    ensures { result ≡ is_fixed_at position }
{
    match position {
        Position::Static | Position::Relative | Position::Absolute => false,
        Position::Fixed => true,
    }
}

// Whether a node of this kind that isn't the root is block level, where it leaves the flow or not, and its display is
// block or not.
fn is_block_level_as(kind: Kind, leaves: bool, display_block: bool) -> bool
    ensures { result ≡ is_block_level_as kind leaves display_block }
{
    match kind {
        Kind::Block => true,
        Kind::Inline | Kind::InlineBlock => leaves,
        Kind::Image | Kind::Svg => leaves || display_block,
        Kind::Text | Kind::Map | Kind::Area | Kind::Group | Kind::Shape | Kind::Inner => false,
    }
}

// Whether a node of this kind is a block container, where it is block level or not.
fn is_block_container_as(kind: Kind, block_level: bool) -> bool
    ensures { result ≡ is_block_container_as kind block_level }
{
    match kind {
        Kind::Block | Kind::InlineBlock => true,
        Kind::Inline => block_level,
        Kind::Image
        | Kind::Svg
        | Kind::Text
        | Kind::Map
        | Kind::Area
        | Kind::Group
        | Kind::Shape
        | Kind::Inner => false,
    }
}

// Whether a kind is atomic where it isn't block level.
fn is_atomic_as(kind: Kind) -> bool
    ensures { result ≡ is_atomic_as kind }
{
    match kind {
        Kind::InlineBlock | Kind::Image | Kind::Svg => true,
        Kind::Block
        | Kind::Inline
        | Kind::Text
        | Kind::Map
        | Kind::Area
        | Kind::Group
        | Kind::Shape
        | Kind::Inner => false,
    }
}

// Whether a node of this kind can make a stacking context.
fn may_make_context(kind: Kind) -> bool
    ensures { result ≡ may_make_context kind }
{
    match kind {
        Kind::Block | Kind::Inline | Kind::InlineBlock | Kind::Image | Kind::Svg => true,
        Kind::Text | Kind::Map | Kind::Area | Kind::Group | Kind::Shape | Kind::Inner => false,
    }
}

// Whether the style of a node makes it a real stacking context.
fn has_context_style(parent: Option<&Node>, node: &Node) -> bool
    ensures { result ≡ has_context_style (option_map label_of (option_copied parent.entry)) (label_of node.now) }
{
    is_fixed_at(used_position(node))
        || ((is_positioned(parent, node) && node.style.z.is_some())
            || (node.style.opacity < 1000 || is_transformed(parent, node)))
}

// Whether the transform of a node isn't none.
fn has_transform(node: &Node) -> bool
    ensures { result ≡ nat_lt 0 (length node.now.style.transform) }
{
    !node.style.transform.0.is_empty()
}

#[cfg(test)]
mod tests;
