ghost use Rattle.std.specs.Prelude.{◌≡◌};
ghost use Rattle.std.specs.Option.{option_map, option_copied};
ghost use Rattle.box_tree.specs.Kept.{label_of};
ghost use Rattle.box_tree.specs.Used.{is_real_context};
ghost use Rattle.stacking.specs.Painting.{is_inline_kind, is_replaced_kind, is_entered, is_block, is_member, is_float, is_inline, is_atom, has_head};

use box_tree::{
    Kind, Node, is_atomic, is_block_container, is_block_level, is_floating, is_in_flow,
    is_positioned, is_real_context,
};

// Whether a node is an inline.
fn is_inline_kind(kind: Kind) -> bool
    ensures { result ≡ is_inline_kind kind }
{
    match kind {
        Kind::Inline => true,
        Kind::Block
        | Kind::InlineBlock
        | Kind::Image
        | Kind::Svg
        | Kind::Text
        | Kind::Map
        | Kind::Area
        | Kind::Group
        | Kind::Shape
        | Kind::Inner => false,
    }
}

// Whether a node is replaced: its content is painted as one (CSS 2.2, 3.1).
pub(crate) fn is_replaced(kind: Kind) -> bool
    ensures { result ≡ is_replaced_kind kind }
{
    match kind {
        Kind::Image | Kind::Svg => true,
        Kind::Block
        | Kind::Inline
        | Kind::InlineBlock
        | Kind::Text
        | Kind::Map
        | Kind::Area
        | Kind::Group
        | Kind::Shape
        | Kind::Inner => false,
    }
}

// Whether the walk of a node above goes on below this one.
#[tactic(auto, unfolding(crate::specs::Painting::is_entered))]
pub(crate) fn is_entered(parent: Option<&Node>, node: &Node) -> bool
    ensures { result ≡ is_entered (option_map label_of (option_copied parent.entry)) (label_of node.now) }
{
    is_in_flow(parent, node)
        && ((is_block_level(parent, node) && is_block_container(parent, node))
            || is_inline_kind(node.kind))
}

// Whether a node is a block in flow.
#[tactic(auto, unfolding(crate::specs::Painting::is_block))]
pub(crate) fn is_block(parent: Option<&Node>, node: &Node) -> bool
    ensures { result ≡ is_block (option_map label_of (option_copied parent.entry)) (label_of node.now) }
{
    is_in_flow(parent, node) && is_block_level(parent, node)
}

// Whether a node is a member of the stacking context around it.
#[tactic(auto, unfolding(crate::specs::Painting::is_member))]
pub(crate) fn is_member(parent: Option<&Node>, node: &Node) -> bool
    ensures { result ≡ is_member (option_map label_of (option_copied parent.entry)) (label_of node.now) }
{
    is_positioned(parent, node) || is_real_context(parent, node)
}

// Whether a node is a float that is no member.
#[tactic(auto, unfolding(crate::specs::Painting::is_float))]
pub(crate) fn is_float(parent: Option<&Node>, node: &Node) -> bool
    ensures { result ≡ is_float (option_map label_of (option_copied parent.entry)) (label_of node.now) }
{
    is_floating(parent, node) && !is_member(parent, node)
}

// Whether a node is an inline whose boxes lie on the lines around it.
#[tactic(auto, unfolding(crate::specs::Painting::is_inline))]
pub(crate) fn is_inline(parent: Option<&Node>, node: &Node) -> bool
    ensures { result ≡ is_inline (option_map label_of (option_copied parent.entry)) (label_of node.now) }
{
    is_inline_kind(node.kind) && !is_block_level(parent, node)
}

// Whether a node is an atomic one in flow.
#[tactic(auto, unfolding(crate::specs::Painting::is_atom))]
pub(crate) fn is_atom(parent: Option<&Node>, node: &Node) -> bool
    ensures { result ≡ is_atom (option_map label_of (option_copied parent.entry)) (label_of node.now) }
{
    is_in_flow(parent, node) && is_atomic(parent, node)
}

// Whether the boxes of a node are painted below all that is in it.
#[tactic(auto, unfolding(crate::specs::Painting::has_head))]
pub(crate) fn has_head(parent: Option<&Node>, node: &Node) -> bool
    ensures { result ≡ has_head (option_map label_of (option_copied parent.entry)) (label_of node.now) }
{
    is_block_level(parent, node) || is_atomic(parent, node)
}

// Whether the members below a node are its own, and not those of the stacking context around it.
pub(crate) fn keeps_members(above: Option<&Node>, node: &Node) -> bool
    ensures { result ≡ is_real_context (option_map label_of (option_copied above.entry)) (label_of node.now) }
{
    is_real_context(above, node)
}
