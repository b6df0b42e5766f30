// The table of the spaces of the nodes of a page and of the values that they inherit.
ghost use Rattle.std.specs.Prelude.{◌≡◌, ◌^◌, ◌+◌, ◌<◌, ◌≤◌, ◌-◌, ◌∷◌, ◌++◌, ℕ, [], length, None, Some, IsTrue, IsFalse, IsSome, IfSome, IfOk, IfErr, OnOk, All, if◌then◌else◌, ◌==◌, true};
ghost use Rattle.std.specs.BTreeMap.{IsOrdered};
ghost use Rattle.std.specs.Ordering.{nat_cmp};
ghost use Rattle.std.specs.Option.{option_map, option_map_or, option_copied, option_or};
ghost use Rattle.affine.specs.Function.{AreWithin};
ghost use Rattle.box_tree.specs.Forest.{node_count, End};
ghost use Rattle.box_tree.specs.Contents.{has_id, tree_of, IsValid, IsWithin};
ghost use Rattle.box_tree.specs.Edited.{ancestors_below};
ghost use Rattle.box_tree.specs.Planned.{is_among};
ghost use Rattle.spaces.specs.Around.{place_among, AreEntered, IsAround};
ghost use Rattle.spaces.specs.Spaces.{is_laid_out as laid_out_kind};
ghost use Rattle.spaces.specs.Table.{entry_under, space_under, local_point_under, new_entry, renewed_entry, subtree_of, applied, is_bounded_in, is_bounded_from, FitsIn, IsTableOutside};

use crate::checked::{find, inner};
use crate::factors::outer_space;
use crate::space::FinePoint;
use crate::table::around::Around;
use crate::table::entry::Kept;
use crate::table::walk::renew_from;
use crate::values::values_from;
use crate::views::{all_show, is_laid_out};
use affine::{Map, local};
use box_tree::{Kind, Page, Wanted, may_hold, outermost};
use computed_style::Inherited;
use fractions::{Blank, Brand, Ledger, Steps};
use std::alloc::{AllocError, Global};
use std::collections::BTreeMap;
use std::marker::Model;

mod around;
mod change;
mod entry;
mod fault;
mod walk;

pub use change::SpaceChange;
pub use fault::BoundOrMemory;

/// The space of each node of a page, where it has one, and the values that it inherits. Contracts see the entry of each
/// id from 0 on, where it has one; there is room for the ids below that.
#[derive(Drop)]
pub struct SpaceTable {
    slots: Vec<Option<Kept>>,
}

impl Model for SpaceTable {
    ghost use Rattle.std.specs.Prelude.{List, Option};
    ghost use Rattle.spaces.specs.declared.table.entry.Entry.{Entry};

    ghost Value = { List (Option Entry) };

    ghost view = { λ table. table.slots.items };
}

impl SpaceTable {
    /// No entry.
    pub fn new(alloc: Global) -> SpaceTable
        ensures { result ≡ [] }
    {
        SpaceTable {
            slots: Vec::new(alloc),
        }
    }

    /// The space of the node of an id: the map from its coordinates to those of the viewport, in units. None exactly
    /// where the id has no entry or its node no space. It takes one step.
    pub fn space_of<L: Ledger>(&self, id: u32, steps: &mut Steps<L>) -> Option<&Map>
        ensures space { option_copied result ≡ space_under self.now id }
        ensures step { steps.new ≡ steps.old + 1 }
    {
        steps.tick();
        match self.slots.get(id as usize) {
            Some(Some(kept)) => kept.entry().space.as_ref(),
            Some(None) | None => None,
        }
    }

    /// A point of the viewport, in units within 2^20, in the space of the node of an id, in fine units (1/4096 px): 64 times its
    /// exact preimage, rounded down. Its coordinates are at most 2^122 in size. None exactly where the id has no entry, its
    /// node no space, or one that is singular. It takes one step.
    pub fn local_point<L: Ledger>(
        &self,
        id: u32,
        x: i64,
        y: i64,
        steps: &mut Steps<L>,
    ) -> Option<FinePoint>
        requires x { IsWithin 20 x }
        requires y { IsWithin 20 y }
        ensures value { result ≡ local_point_under self.now id x y }
        ensures size { IfSome result (λ at. AreWithin (2 ^ 122) at.x at.y) }
        ensures step { steps.new ≡ steps.old + 1 }
    {
        let space = self.space_of(id, steps)?;
        let (x, y) = local(space, x, y)?;
        Some(FinePoint { x, y })
    }

    /// The values of the node of an id that has an entry. It takes one step.
    pub fn values_of<L: Ledger>(&self, id: u32, steps: &mut Steps<L>) -> &Inherited
        requires { IsSome (entry_under self.now id) }
        ensures values { option_map (λ entry. entry.values) (entry_under self.now id) ≡ Some result.now }
        ensures step { steps.new ≡ steps.old + 1 }
    {
        steps.tick();
        let kept = self.slots[id as usize].as_ref().unwrap();
        &kept.entry().values
    }

    /// The entries of a node of a page and of all below it, or of the whole page where the id is 0; no entry where the
    /// id isn't in the page. There is room to apply them. Bound exactly where a partial product of one of these nodes
    /// passes the bound on maps. The entries of the table stay, whatever the answer.
    pub fn renew(&mut self, page: &Page, subtree: u32) -> Result<SpaceChange, BoundOrMemory>
        requires { IsTableOutside self.old page.now.contents subtree }
        ensures entries { (id : ℕ) → entry_under self.new id ≡ entry_under self.old id }
        ensures room { length self.old ≤ length self.new }
        ensures renewed { IfOk result (λ change. (id : ℕ) → new_entry change id ≡ renewed_entry page.now.contents subtree id) }
        ensures count { IfOk result (λ change. length change ≤ node_count (subtree_of page.now.contents subtree)) }
        ensures fits { IfOk result (λ change. FitsIn (length self.new) change) }
        ensures bounded { OnOk result (IsTrue (is_bounded_in page.now.contents subtree)) }
        ensures beyond { IfErr result (λ why. why ≡ BoundOrMemory.Bound → IsFalse (is_bounded_in page.now.contents subtree)) }
    {
        page.validity();
        lengthen(&mut self.slots, page.next_id() as usize)?;
        self.renewed::<Brand>(page, subtree, Blank::new(1))
    }

    // The entries of a subtree, with the ledger for the counter of the nodes that are read.
    fn renewed<L: Ledger>(
        &self,
        page: &Page,
        subtree: u32,
        blank: Blank,
    ) -> Result<SpaceChange, BoundOrMemory>
        requires valid { IsValid page.now.contents }
        requires outside { IsTableOutside self.now page.now.contents subtree }
        requires name { blank.name ≡ L.name }
        requires parts { blank.parts ≡ L.parts }
        requires some_parts { 0 < blank.parts }
        ensures renewed { IfOk result (λ change. (id : ℕ) → new_entry change id ≡ renewed_entry page.now.contents subtree id) }
        ensures count { IfOk result (λ change. length change ≤ node_count (subtree_of page.now.contents subtree)) }
        ensures bounded { OnOk result (IsTrue (is_bounded_in page.now.contents subtree)) }
        ensures beyond { IfErr result (λ why. why ≡ BoundOrMemory.Bound → IsFalse (is_bounded_in page.now.contents subtree)) }
    {
        let mut change = SpaceChange::new(*self.slots.allocator());
        let Some(top) = top_of(page, subtree) else {
            return Ok(change);
        };
        let steps = &mut Steps::<L>::new(blank);
        let parent = page.node(top, steps).parent;
        let around = self.around(page, parent, steps);
        renew_from(page, top, &around, &mut change, steps)?;
        Ok(change)
    }

    // What a node and its ancestors hand down to what is in it: nothing but the initial values and places for id 0.
    fn around<L: Ledger>(&self, page: &Page, id: u32, steps: &mut Steps<L>) -> Around
        requires valid { IsValid page.now.contents }
        requires entered { AreEntered self.now page.now.contents (ancestors_below page.now.contents id) }
        ensures { IsAround page.now.contents.viewport (ancestors_below page.now.contents id) result }
    {
        Around {
            shown: all_show(page, id, steps),
            values: values_from(page, id, steps),
            container: self.place(page, id, Wanted::Container, steps),
            positioned: self.place(page, id, Wanted::Positioned, steps),
            transformed: self.place(page, id, Wanted::Transformed, steps),
            parent: self.place(page, id, Wanted::Parent, steps),
        }
    }

    // Where the containing block of what seeks this places it, in the node of an id.
    fn place<L: Ledger>(
        &self,
        page: &Page,
        id: u32,
        wanted: Wanted,
        steps: &mut Steps<L>,
    ) -> Option<Map>
        requires valid { IsValid page.now.contents }
        requires entered { AreEntered self.now page.now.contents (ancestors_below page.now.contents id) }
        ensures { result ≡ place_among page.now.contents.viewport wanted (ancestors_below page.now.contents id) }
    {
        if !page.has(id) {
            return Some(outer_space(&page.viewport(), outermost(wanted)));
        }
        let node = page.node(id, steps);
        let parent = find(page, node.parent, steps);
        if may_hold(wanted, parent, node) {
            let space = self.kept_space(id, node.kind);
            return inner(space, parent, node);
        }
        self.place(page, node.parent, wanted, steps)
    }

    // The space of the node of an id and of this kind, where it has one: a map and its areas have no entry.
    fn kept_space(&self, id: u32, kind: Kind) -> Option<Map>
        ensures { result ≡ (if laid_out_kind kind then space_under self.now id else None) }
    {
        if !is_laid_out(kind) {
            return None;
        }
        match self.slots.get(id as usize) {
            Some(Some(kept)) => kept.entry().space,
            Some(None) | None => None,
        }
    }

    /// Puts the entries of a change into the table, and takes those of the removed ids out. It takes no memory, and one
    /// step for each entry of the change and for each removed id.
    pub fn apply<L: Ledger>(&mut self, change: SpaceChange, removed: &[u32], steps: &mut Steps<L>)
        requires fits { FitsIn (length self.old) change }
        requires apart { All (λ id. new_entry change id ≡ None) removed.now }
        ensures entries { (id : ℕ) → entry_under self.new id ≡ applied self.old change removed.now id }
        ensures room { length self.new ≡ length self.old }
        ensures cost { steps.new ≡ steps.old + length change + length removed.now }
    {
        put(&mut self.slots, change.kept, steps);
        self.take_out(removed, steps);
    }

    // Takes the entries of some ids out.
    fn take_out<L: Ledger>(&mut self, removed: &[u32], steps: &mut Steps<L>)
        ensures entries { (id : ℕ) → entry_under self.new id ≡ (if is_among removed.now id then None else entry_under self.old id) }
        ensures room { length self.new ≡ length self.old }
        ensures cost { steps.new ≡ steps.old + length removed.now }
    {
        for id in removed {
            self.clear(*id);
            steps.tick();
        }
    }

    // Takes the entry of an id out, where it has one.
    fn clear(&mut self, id: u32)
        ensures entries { (x : ℕ) → entry_under self.new x ≡ (if id == x then None else entry_under self.old x) }
        ensures room { length self.new ≡ length self.old }
    {
        let id = id as usize;
        if id < self.slots.len() {
            self.slots[id] = None;
        }
    }
}

// Makes slots reach up to a length. The entries stay.
fn lengthen(slots: &mut Vec<Option<Kept>>, len: usize) -> Result<(), AllocError>
    ensures entries { (id : ℕ) → entry_under slots.new.items id ≡ entry_under slots.old.items id }
    ensures no_shorter { length slots.old.items ≤ length slots.new.items }
    ensures long { OnOk result (len ≤ length slots.new.items) }
{
    let missing = len.saturating_sub(slots.len());
    slots.reserve(missing)?;
    for _ in 0..missing {
        slots.push_reserved(None);
    }
    Ok(())
}

// Puts entries into their slots.
fn put<L: Ledger>(slots: &mut Vec<Option<Kept>>, kept: BTreeMap<u32, Kept>, steps: &mut Steps<L>)
    requires fits { FitsIn (length slots.old.items) kept.entries }
    requires ordered { IsOrdered nat_cmp kept }
    ensures entries { (id : ℕ) → entry_under slots.new.items id ≡ option_or (new_entry kept.entries id) (entry_under slots.old.items id) }
    ensures room { length slots.new.items ≡ length slots.old.items }
    ensures cost { steps.new ≡ steps.old + length kept.entries }
{
    for (id, entry) in kept {
        slots[id as usize] = Some(entry);
        steps.tick();
    }
}

// The node whose subtree is meant: the root where the id is 0, none where the page has no such node.
fn top_of(page: &Page, subtree: u32) -> Option<u32>
    requires { IsValid page.now.contents }
    ensures there { IfSome result (λ top. IsTrue (has_id page.now.contents top)) }
    ensures subtree { subtree_of page.now.contents subtree ≡ option_map_or (λ top. tree_of page.now.contents top) result End }
    ensures bounded { is_bounded_in page.now.contents subtree ≡ option_map_or (λ top. is_bounded_from page.now.contents top) result true }
{
    if subtree == 0 {
        page.root()
    } else if page.has(subtree) {
        Some(subtree)
    } else {
        None
    }
}
