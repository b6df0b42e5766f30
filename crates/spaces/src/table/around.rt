// What the ancestors of a node hand down to it.
ghost use Rattle.std.specs.Prelude.{◌≡◌, ◌&&◌, IsTrue, IsFalse, IfOk, IfErr, OnOk, OnErr, Some, if◌then◌else◌};
ghost use Rattle.std.specs.Option.{option_map, option_copied};
ghost use Rattle.box_tree.specs.Containing.{may_hold, standing_at};
ghost use Rattle.box_tree.specs.Contents.{has_id, ancestors_of, placed_of, IsValid};
ghost use Rattle.box_tree.specs.Edited.{ancestors_below};
ghost use Rattle.box_tree.specs.Kept.{label_of};
ghost use Rattle.box_tree.specs.Suits.{is_text};
ghost use Rattle.computed_style.specs.Inheritance.{computed};
ghost use Rattle.spaces.specs.Around.{place_in, is_bounded_by, IsAround};
ghost use Rattle.spaces.specs.Sizes.{HasNumbersInRange};
ghost use Rattle.spaces.specs.Spaces.{is_laid_out as laid_out_kind, shows as shows_label, space as space_at};
ghost use Rattle.spaces.specs.Table.{entry_at};

use crate::checked::{find, inner, own};
use crate::table::entry::Entry;
use crate::table::fault::BoundOrMemory;
use crate::views::{is_laid_out, shows};
use affine::Map;
use box_tree::{Kind, Node, Page, Wanted, may_hold, sought};
use computed_style::{Inherited, compute};
use fractions::{Ledger, Steps};

/// What the ancestors of a node hand down to it.
#[derive(Drop)]
pub(crate) struct Around {
    /// Whether each of them shows what is in it.
    pub(crate) shown: bool,
    /// The values of the nearest, and the initial ones above the root.
    pub(crate) values: Inherited,
    /// Where its containing block places what seeks a block container; None where a product on the way there passes the
    /// bound, or the containing block has no space.
    pub(crate) container: Option<Map>,
    pub(crate) positioned: Option<Map>,
    pub(crate) transformed: Option<Map>,
    pub(crate) parent: Option<Map>,
}

impl Around {
    // Where the containing block of what seeks this places it.
    fn place(&self, wanted: Wanted) -> Option<Map>
        ensures { result ≡ place_in self.now wanted }
    {
        match wanted {
            Wanted::Container => self.container,
            Wanted::Positioned => self.positioned,
            Wanted::Transformed => self.transformed,
            Wanted::Parent => self.parent,
        }
    }

    // The same for what is in a node, which places what it holds here.
    fn place_inside(
        &self,
        wanted: Wanted,
        parent: Option<&Node>,
        node: &Node,
        inner: &Option<Map>,
    ) -> Option<Map>
        ensures { result ≡ (if may_hold wanted (option_map label_of (option_copied parent.entry)) (label_of node.now) then inner.now else place_in self.now wanted) }
    {
        if may_hold(wanted, parent, node) {
            *inner
        } else {
            self.place(wanted)
        }
    }

    /// The entry of a node, from what its ancestors hand down. Bound exactly where one of its partial products passes the
    /// bound.
    pub(crate) fn entry<L: Ledger>(
        &self,
        page: &Page,
        id: u32,
        steps: &mut Steps<L>,
    ) -> Result<Entry, BoundOrMemory>
        requires valid { IsValid page.now.contents }
        requires there { IsTrue (has_id page.now.contents id) }
        requires around { IsAround page.now.contents.viewport (ancestors_of page.now.contents id) self.now }
        ensures entry { IfOk result (λ entry. option_map (λ p. entry_at page.now.contents.viewport (standing_at p)) (placed_of page.now.contents id) ≡ Some entry) }
        ensures bounded { OnOk result (IsTrue (is_bounded_by page.now.contents id)) }
        ensures bound { IfErr result (λ why. why ≡ BoundOrMemory.Bound) }
        ensures beyond { OnErr result (IsFalse (is_bounded_by page.now.contents id)) }
    {
        let space = self.space(page, id, steps)?;
        let values = self.values(page.node(id, steps));
        Ok(Entry { space, values })
    }

    // The space of a node, None where it has none.
    fn space<L: Ledger>(
        &self,
        page: &Page,
        id: u32,
        steps: &mut Steps<L>,
    ) -> Result<Option<Map>, BoundOrMemory>
        requires valid { IsValid page.now.contents }
        requires there { IsTrue (has_id page.now.contents id) }
        requires around { IsAround page.now.contents.viewport (ancestors_of page.now.contents id) self.now }
        ensures space { IfOk result (λ found. found ≡ space_at page.now.contents id) }
        ensures bounded { OnOk result (IsTrue (is_bounded_by page.now.contents id)) }
        ensures bound { IfErr result (λ why. why ≡ BoundOrMemory.Bound) }
        ensures beyond { OnErr result (IsFalse (is_bounded_by page.now.contents id)) }
    {
        let node = page.node(id, steps);
        if !self.has_space(node.kind) {
            return Ok(None);
        }
        let parent = find(page, node.parent, steps);
        match own(self.place(sought(node)), parent, node) {
            Some(space) => Ok(Some(space)),
            None => Err(BoundOrMemory::Bound),
        }
    }

    // Whether a node of this kind has a space.
    fn has_space(&self, kind: Kind) -> bool
        ensures { result ≡ (laid_out_kind kind && self.now.shown) }
    {
        is_laid_out(kind) && self.shown
    }

    // The values of a node: a text takes its parent's.
    fn values(&self, node: &Node) -> Inherited
        ensures { result ≡ (if is_text node.now.kind then self.now.values else computed self.now.values node.now.style) }
    {
        if node.kind.is_text() {
            self.values
        } else {
            compute(&self.values, &node.style)
        }
    }

    // Whether a node and its ancestors show what is in it.
    fn shows_in(&self, node: &Node) -> bool
        requires { HasNumbersInRange (label_of node.now) }
        ensures { result ≡ (shows_label (label_of node.now) && self.now.shown) }
    {
        shows(node) && self.shown
    }

    /// What a node and its ancestors hand down to what is in it, where the space of the node is known.
    pub(crate) fn inside<L: Ledger>(
        &self,
        page: &Page,
        id: u32,
        space: Option<Map>,
        steps: &mut Steps<L>,
    ) -> Around
        requires valid { IsValid page.now.contents }
        requires there { IsTrue (has_id page.now.contents id) }
        requires around { IsAround page.now.contents.viewport (ancestors_of page.now.contents id) self.now }
        requires space { space ≡ space_at page.now.contents id }
        ensures { IsAround page.now.contents.viewport (ancestors_below page.now.contents id) result }
    {
        let node = page.node(id, steps);
        let parent = find(page, node.parent, steps);
        let inner = inner(space, parent, node);
        Around {
            shown: self.shows_in(node),
            values: compute(&self.values, &node.style),
            container: self.place_inside(Wanted::Container, parent, node, &inner),
            positioned: self.place_inside(Wanted::Positioned, parent, node, &inner),
            transformed: self.place_inside(Wanted::Transformed, parent, node, &inner),
            parent: self.place_inside(Wanted::Parent, parent, node, &inner),
        }
    }
}
