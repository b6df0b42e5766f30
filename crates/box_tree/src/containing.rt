// What holds a node: its containing block.
ghost use Rattle.std.specs.Prelude.{◌≡◌, IsTrue};
ghost use Rattle.std.specs.Option.{option_map, option_copied};
ghost use Rattle.box_tree.specs.Contents.{has_id};
ghost use Rattle.box_tree.specs.Containing.{sought as seeks, sought_as as seeks_as, sought_at as seeks_at, may_hold, outermost, holder_among, containing_block, makes_context, clips};
ghost use Rattle.box_tree.specs.Edited.{ancestors_below};
ghost use Rattle.box_tree.specs.Kept.{label_of};

use crate::kind::Kind;
use crate::node::Node;
use crate::page::Page;
use crate::used::{
    is_block_container, is_clipping, is_positioned, is_real_context, is_transformed,
};
use computed_style::Position;

/// A containing block (CSS 2.2, 10.1; CSS Transforms 1, 3).
#[derive(Clone, Copy, Debug, PartialEq, Eq)]
pub enum Holder {
    /// That of a node.
    Node { id: u32 },
    /// The initial containing block, which scrolls with the page.
    Initial,
    /// The viewport, which doesn't scroll.
    Viewport,
}

/// What a node seeks among its ancestors as its containing block (CSS 2.2, 10.1; CSS Transforms 1, 3).
#[derive(Clone, Copy, Debug, PartialEq, Eq)]
pub enum Wanted {
    /// A block container.
    Container,
    /// A positioned or transformed node.
    Positioned,
    /// A transformed node.
    Transformed,
    /// Its parent.
    Parent,
}

impl Page {
    /// The containing block of a node (CSS 2.2, 10.1): for static and relative position and for a text the nearest
    /// ancestor that is a block container, for absolute position the nearest that is positioned or transformed, for fixed
    /// position the nearest that is transformed. Without such an ancestor it is the viewport for fixed position and the
    /// initial containing block for the others. Of SVG content it is the parent (SVG 2, 8.3); so it is said of a map and of
    /// an area too.
    pub fn containing_block(&self, id: u32) -> Holder
        requires { IsTrue (has_id self.now.contents id) }
        ensures { result ≡ containing_block self.now.contents id }
    {
        self.validity();
        let node = self.find(id).unwrap();
        self.holder_from(node.parent, sought(node))
    }

    /// Whether a node is a real stacking context (CSS 2.2, 9.9.1; CSS Color 3, 3.2; CSS Transforms 1, 3).
    pub fn makes_context(&self, id: u32) -> bool
        requires { IsTrue (has_id self.now.contents id) }
        ensures { result ≡ makes_context self.now.contents id }
    {
        self.validity();
        let node = self.find(id).unwrap();
        is_real_context(self.find(node.parent), node)
    }

    /// Whether a node clips what it holds (CSS 2.2, 11.1.1).
    pub fn clips(&self, id: u32) -> bool
        requires { IsTrue (has_id self.now.contents id) }
        ensures { result ≡ clips self.now.contents id }
    {
        self.validity();
        let node = self.find(id).unwrap();
        is_clipping(self.find(node.parent), node)
    }

    // The nearest of a node and its ancestors that may hold what seeks this.
    fn holder_from(&self, id: u32, wanted: Wanted) -> Holder
        ensures { result ≡ holder_among wanted (ancestors_below self.now.contents id) }
    {
        self.validity();
        let mut above = id;
        while let Some(node) = self.find(above) {
            if may_hold(wanted, self.find(node.parent), node) {
                return Holder::Node { id: above };
            }
            above = node.parent;
        }
        outermost(wanted)
    }
}

/// What a node seeks as its containing block, by its position: a text counts as static, and SVG content seeks its parent, and
/// so do a map and an area (CSS 2.2, 10.1; SVG 2, 8.3).
pub fn sought(node: &Node) -> Wanted
    ensures { result ≡ seeks (label_of node.now) }
{
    sought_as(node.kind, node.style.position)
}

// What a node of this kind and position seeks.
fn sought_as(kind: Kind, position: Position) -> Wanted
    ensures { result ≡ seeks_as kind position }
{
    match kind {
        Kind::Block | Kind::Inline | Kind::InlineBlock | Kind::Image | Kind::Svg => {
            sought_at(position)
        }
        Kind::Text => Wanted::Container,
        Kind::Map | Kind::Area | Kind::Group | Kind::Shape | Kind::Inner => Wanted::Parent,
    }
}

// What a CSS node of this position seeks.
fn sought_at(position: Position) -> Wanted
    ensures { result ≡ seeks_at position }
{
    match position {
        Position::Static | Position::Relative => Wanted::Container,
        Position::Absolute => Wanted::Positioned,
        Position::Fixed => Wanted::Transformed,
    }
}

/// Whether a node, below this parent (none for the root), may be the containing block of what seeks this (CSS 2.2, 10.1; CSS
/// Transforms 1, 3).
pub fn may_hold(wanted: Wanted, parent: Option<&Node>, node: &Node) -> bool
    ensures { result ≡ may_hold wanted (option_map label_of (option_copied parent.entry)) (label_of node.now) }
{
    match wanted {
        Wanted::Container => is_block_container(parent, node),
        Wanted::Positioned => is_positioned(parent, node) || is_transformed(parent, node),
        Wanted::Transformed => is_transformed(parent, node),
        Wanted::Parent => true,
    }
}

/// What holds what seeks this, where no node may hold it: the viewport for what seeks a transformed node, and else the initial
/// containing block (CSS 2.2, 10.1).
pub fn outermost(wanted: Wanted) -> Holder
    ensures { result ≡ outermost wanted }
{
    match wanted {
        Wanted::Container | Wanted::Positioned | Wanted::Parent => Holder::Initial,
        Wanted::Transformed => Holder::Viewport,
    }
}

#[cfg(test)]
mod tests;
