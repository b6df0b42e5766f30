ghost use Rattle.std.specs.Prelude.{◌≡◌, ◌≢◌, ◌≤ℤ◌, ◌^◌, pos, IsTrue, IfOk, IfErr, OnOk, OnErr};
ghost use Rattle.box_tree.specs.declared.edit.EditFault.TheVariants.{OutOfMemory as MemoryFault};
ghost use Rattle.box_tree.specs.Contents.{empty_page};
ghost use Rattle.box_tree.specs.Edited.{IsInRange, edited, answer_of};
ghost use Rattle.box_tree.specs.Numbers.{KeepsNumbers, GivesFreshNumbers, HasSameItems};
ghost use Rattle.spaces.specs.Bound.{is_bounded};
ghost use Rattle.spaces.specs.Table.{IsTableOf};
ghost use Rattle.tree_edits.specs.Cells.{IsGridOf, AreBoundsOf};
ghost use Rattle.tree_edits.specs.Edits.{first_fault, fault_of};
ghost use Rattle.tree_edits.specs.Faithful.{IsForestOf};

use crate::kept::Kept;
use crate::memory::OutOfMemory;
use crate::reach::reach_of;
use box_tree::{Done, Edit, EditFault, Page};
use fractions::{Ledger, Rect, Steps};
use paint_order::Forest;
use spaces::{BoundOrMemory, SpaceTable};
use spatial_index::Grid;
use std::alloc::Global;
use std::marker::Model;

/// A page that is edited and queried, which clauses see as its contents and the numbers of its items, with the table of its
/// spaces, the forest of its painting lists and the grid of its items. No partial product of any of its nodes passes the bound
/// on maps.
#[derive(Drop)]
pub struct Engine {
    page: Page,
    kept: Kept,
    alloc: Global,
}

impl Model for Engine {
    ghost use Rattle.std.specs.Coded.{Coded, codes};
    ghost use Rattle.box_tree.specs.Forest.{Label};
    ghost use Rattle.box_tree.specs.ForestCode.{forest_code};
    ghost use Rattle.tree_edits.specs.EngineState.{EngineState};

    ghost Value = { EngineState };

    ghost coded = { let label : Coded Label = Prim.hlevel codes in Prim.hlevel (codes, forest_code label) };

    ghost view = { λ e. record { contents = e.page.contents; items = e.page.items } };

    ghost use Rattle.tree_edits.specs.Faithful.{IsFaithful};

    ghost invariant = { λ e. IsFaithful e.page.contents e.page.items e.kept };
}

impl Engine {
    /// An engine of an empty page, seen through an unscrolled viewport of these sides, 1 to 2^20 units each.
    pub fn new(alloc: Global, w: i64, h: i64) -> Result<Engine, OutOfMemory>
        requires width { (pos 1 ≤ℤ w) × (w ≤ℤ pos (2 ^ 20)) }
        requires height { (pos 1 ≤ℤ h) × (h ≤ℤ pos (2 ^ 20)) }
        ensures { IfOk result (λ engine. engine.contents ≡ empty_page w h) }
    {
        let page = Page::new(alloc, w, h);
        page.numbering();
        Ok(Engine {
            page,
            kept: Kept::new(alloc, w, h)?,
            alloc,
        })
    }

    /// Applies an edit, or refuses it by its first fault and changes nothing, the next id neither. An edit that a map on
    /// the way to a node would make pass the bound is carried out, found so and taken back. Want of memory may come in
    /// place of any other answer.
    pub fn edit<L: Ledger>(&mut self, edit: &Edit, steps: &mut Steps<L>) -> Result<Done, EditFault>
        requires { IsInRange edit.now }
        ensures faultless { OnOk result (first_fault self.old.contents edit.now ≡ None) }
        ensures edited { OnOk result (self.new.contents ≡ edited self.old.contents edit.now) }
        ensures answer { IfOk result (λ done. done ≡ answer_of self.old.contents edit.now) }
        ensures numbers_kept { OnOk result (KeepsNumbers self.old.items self.new.items self.new.contents) }
        ensures numbers_fresh { OnOk result (GivesFreshNumbers self.old.items self.new.items) }
        ensures first_fault { IfErr result (λ why. why ≢ MemoryFault → first_fault self.old.contents edit.now ≡ Some why) }
        ensures unchanged { OnErr result (self.new.contents ≡ self.old.contents) }
        ensures same_items { OnErr result (HasSameItems self.old.items self.new.items) }
    {
        self.page.validity();
        let prepared = self.page.check(edit)?;
        let Ok(reach) = reach_of(self.alloc, &self.page, edit, steps) else {
            return Err(EditFault::OutOfMemory);
        };
        self.page.numbering();
        let undo = self.page.commit(prepared);
        self.page.validity();
        self.page.numbering();
        match self.kept.follow(self.alloc, &self.page, &reach, steps) {
            Ok(()) => Ok(self.page.settle(undo)),
            Err(why) => {
                self.page.revert(undo);
                Err(fault_of(why))
            }
        }
    }

    /// The page as it stands.
    pub fn page(&self) -> &Page
        ensures contents { result.now.contents ≡ self.now.contents }
        ensures items { result.now.items ≡ self.now.items }
        ensures bounded { IsTrue (is_bounded result.now.contents) }
    {
        &self.page
    }

    /// The space of each node of the page as it stands, and the values that it inherits.
    pub fn spaces(&self) -> &SpaceTable
        ensures { IsTableOf result.now self.now.contents }
    {
        &self.kept.spaces
    }

    /// The lists of the stacking contexts of the page as it stands, each under the id of the context and with the numbers of
    /// the items, the root list under the id of the root: an empty list 0 for a page without a tree.
    pub fn forest(&self) -> &Forest
        ensures { IsForestOf result.now self.now.contents self.now.items }
    {
        &self.kept.forest
    }

    /// The grid over the whole points of the viewport, in which each item of the page as it stands is in the cells that its bounds
    /// meet, under its number, and nothing else.
    pub fn grid(&self) -> &Grid
        ensures { IsGridOf result.now self.now.contents self.now.items }
    {
        self.kept.item_grid.soundness();
        self.kept.item_grid.grid()
    }

    /// The bounds in the viewport of each item of the page as it stands, in units, under its number, and four zeros under each
    /// number that no item has.
    pub fn bounds(&self) -> &[Rect]
        ensures { AreBoundsOf result.now self.now.contents self.now.items }
    {
        self.kept.item_grid.bounds()
    }
}

// The fault of an edit that leaves spaces which can't be renewed.
fn fault_of(why: BoundOrMemory) -> EditFault
    ensures { result ≡ fault_of why }
{
    match why {
        BoundOrMemory::Bound => EditFault::Bound,
        BoundOrMemory::OutOfMemory => EditFault::OutOfMemory,
    }
}

#[cfg(test)]
mod tests;
