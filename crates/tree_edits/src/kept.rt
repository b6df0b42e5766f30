// What an engine keeps beside its page: after an edit all that changes is made ready, so that then no step can fail.
ghost use Rattle.std.specs.Prelude.{◌≡◌, ◌<◌, ℕ, [], ◌∷◌, None, Some, length, All, IsTrue, IsFalse, IfOk, IfErr, OnOk, OnErr};
ghost use Rattle.std.specs.List.{AllByRecursion};
ghost use Rattle.box_tree.specs.Containing.{makes_context};
ghost use Rattle.box_tree.specs.Contents.{has_id};
ghost use Rattle.box_tree.specs.Numbers.{IsNumber};
ghost use Rattle.box_tree.specs.Planned.{is_among};
ghost use Rattle.paint_order.specs.Lists.{list_under};
ghost use Rattle.spaces.specs.Bound.{is_bounded};
ghost use Rattle.spaces.specs.Table.{entry_under, new_entry, renewed_entry, applied, is_bounded_in, FitsIn, IsTableOutside};
ghost use Rattle.spatial_index.specs.Cells.{IsSide};
ghost use Rattle.spatial_index.specs.Contents.{AreOfDistinctItems};
ghost use Rattle.stacking.specs.Frame.{is_next_to};
ghost use Rattle.tree_edits.specs.Cells.{region_of, rect_under};
ghost use Rattle.tree_edits.specs.Changes.{behind, changes_of, placed_by};
ghost use Rattle.tree_edits.specs.Committed.{IsOfPageBefore, KeepsAll, IsMadeReady, IsPutIn};
ghost use Rattle.tree_edits.specs.Exchange.{IsListOf, HasRoomFor, MayExchange, contexts_of};
ghost use Rattle.tree_edits.specs.Faithful.{IsForestOf, IsFaithful};
ghost use Rattle.tree_edits.specs.ItemGrid.{IsReadyFor, StandAsBefore, MayExchangeItems, region_after};

use crate::changes::{gone_numbers, make_changes};
use crate::item_grid::ItemGrid;
use crate::lists::{FreshList, exchange_lists, ready_lists};
use crate::memory::OutOfMemory;
use crate::reach::Reach;
use box_tree::Page;
use fractions::{Ledger, Steps};
use paint_order::Forest;
use spaces::{BoundOrMemory, SpaceChange, SpaceTable};
use spatial_index::{Change, Grid};
use std::alloc::Global;

/// The table of the spaces of a page, the forest of its painting lists, and the grid of its items.
#[derive(Drop)]
pub(crate) struct Kept {
    pub spaces: SpaceTable,
    pub forest: Forest,
    pub item_grid: ItemGrid,
}

/// What takes the place of what an edit changes.
#[derive(Drop)]
struct Ready {
    /// The new entries of the table of spaces.
    pub spaces: SpaceChange,
    /// The new lists of stacking contexts.
    pub lists: Vec<FreshList>,
    /// The items that change where they stand.
    pub changes: Vec<Change>,
    /// The grid of a viewport with new sides.
    pub grid: Option<Grid>,
}

impl Kept {
    /// What is kept beside an empty page, in a viewport of these sides, in units.
    pub(crate) fn new(alloc: Global, w: i64, h: i64) -> Result<Kept, OutOfMemory>
        requires width { IsSide w }
        requires height { IsSide h }
        ensures spaces { IfOk result (λ kept. kept.spaces ≡ []) }
        ensures forest { IfOk result (λ kept. kept.forest ≡ record {
          lists = Some [] ∷ [];
          root = 0;
          item_room = 0;
        }) }
        ensures region { IfOk result (λ kept. kept.item_grid.grid.region ≡ record { width = w; height = h }) }
        ensures bounds { IfOk result (λ kept. kept.item_grid.bounds ≡ []) }
    {
        Ok(Kept {
            spaces: SpaceTable::new(alloc),
            forest: Forest::new(alloc, 0)?,
            item_grid: ItemGrid::new(alloc, w, h)?,
        })
    }

    /// Follows an edit that the page has taken: puts what it changes anew, or leaves all as it was. The answer is Bound exactly
    /// where a map on the way to a node passes the bound, unless memory runs out before that is seen.
    pub(crate) fn follow<L: Ledger>(
        &mut self,
        alloc: Global,
        page: &Page,
        reach: &Reach,
        steps: &mut Steps<L>,
    ) -> Result<(), BoundOrMemory>
        requires { IsOfPageBefore self.old page.now.contents page.now.items reach.now }
        ensures faithful { OnOk result (IsFaithful page.now.contents page.now.items self.new) }
        ensures same { OnErr result (KeepsAll self.old self.new) }
        ensures beyond { IfErr result (λ why. why ≡ BoundOrMemory.Bound → IsFalse (is_bounded page.now.contents)) }
    {
        let ready = self.make_ready(alloc, page, reach, steps)?;
        self.put_in(alloc, page, reach, ready, steps);
        Ok(())
    }

    // The new entries of the subtree of a node of the page, the new lists of the touched stacking contexts and those next to the
    // node, and the changes of the items of the subtree and of those that are gone. There is room for all of them. The entries
    // of the table, the lists of the forest and the items of the grid stay, whatever the answer.
    fn make_ready<L: Ledger>(
        &mut self,
        alloc: Global,
        page: &Page,
        reach: &Reach,
        steps: &mut Steps<L>,
    ) -> Result<Ready, BoundOrMemory>
        requires table { IsTableOutside self.old.spaces page.now.contents reach.now.subtree }
        requires distinct { AreOfDistinctItems (changes_of self.old.item_grid.bounds page.now.contents page.now.items reach.now.subtree (behind page.now.items reach.now.subtree reach.now.numbers.items)) }
        requires region { IsFalse reach.now.resizes → self.old.item_grid.grid.region ≡ region_of page.now.contents.viewport }
        ensures same { KeepsAll self.old self.new }
        ensures made { IfOk result (λ ready. IsMadeReady page.now.contents page.now.items reach.now self.old self.new ready) }
        ensures beyond { IfErr result (λ why. why ≡ BoundOrMemory.Bound → IsFalse (is_bounded_in page.now.contents reach.now.subtree)) }
    {
        let spaces = self.spaces.renew(page, reach.subtree)?;
        let touched = reach.touched.as_slice();
        let Ok(lists) = ready_lists(alloc, page, &mut self.forest, reach.subtree, touched) else {
            return Err(BoundOrMemory::OutOfMemory);
        };
        let item_grid = &mut self.item_grid;
        let Ok((changes, grid)) = ready_items(alloc, page, &spaces, item_grid, reach, steps) else {
            return Err(BoundOrMemory::OutOfMemory);
        };
        Ok(Ready {
            spaces,
            lists,
            changes,
            grid,
        })
    }

    // Puts what is ready in the place of what the edit changes. It takes no memory.
    fn put_in<L: Ledger>(
        &mut self,
        alloc: Global,
        page: &Page,
        reach: &Reach,
        ready: Ready,
        steps: &mut Steps<L>,
    )
        requires fits { FitsIn (length self.old.spaces) ready.spaces }
        requires apart { All (λ id. new_entry ready.spaces id ≡ None) reach.now.removed.items }
        requires lists { MayExchange self.old.forest page.now.contents page.now.items reach.now.touched.items ready.lists.items reach.now.was_bare }
        requires items { MayExchangeItems self.old.item_grid ready.changes.items ready.grid }
        ensures { IsPutIn page.now.contents page.now.items reach.now self.old self.new ready }
    {
        let Ready {
            spaces,
            lists,
            changes,
            grid,
        } = ready;
        self.spaces.apply(spaces, reach.removed.as_slice(), steps);
        exchange_lists(
            alloc,
            &mut self.forest,
            page,
            reach.touched.as_slice(),
            lists,
            reach.was_bare,
            steps,
        );
        self.item_grid.exchange(changes.as_slice(), grid, steps);
    }
}

// The changes of the items of the subtree and of those that are gone, by the new entries, and a grid with them where the viewport
// gets other sides. There is room for them, and the items stand as they did, whatever the answer.
fn ready_items<L: Ledger>(
    alloc: Global,
    page: &Page,
    change: &SpaceChange,
    item_grid: &mut ItemGrid,
    reach: &Reach,
    steps: &mut Steps<L>,
) -> Result<(Vec<Change>, Option<Grid>), OutOfMemory>
    requires renewed { (id : ℕ) → new_entry change.now id ≡ renewed_entry page.now.contents reach.now.subtree id }
    requires distinct { AreOfDistinctItems (changes_of item_grid.old.bounds page.now.contents page.now.items reach.now.subtree (behind page.now.items reach.now.subtree reach.now.numbers.items)) }
    requires region { IsFalse reach.now.resizes → item_grid.old.grid.region ≡ region_of page.now.contents.viewport }
    ensures stand { StandAsBefore item_grid.old item_grid.new }
    ensures changes { IfOk result (λ ready. ready.0.items ≡ changes_of item_grid.old.bounds page.now.contents page.now.items reach.now.subtree (behind page.now.items reach.now.subtree reach.now.numbers.items)) }
    ensures long { OnOk result ((number : ℕ) → IsNumber page.now.items number → number < length item_grid.new.bounds) }
    ensures grid { IfOk result (λ ready. IsReadyFor ready.0.items (region_of page.now.contents.viewport) reach.now.resizes item_grid.new.grid ready.1) }
{
    page.validity();
    let gone = gone_numbers(page, reach.subtree, reach.numbers.as_slice(), steps);
    let bounds = item_grid.bounds();
    let changes = make_changes(alloc, page, change, reach.subtree, gone, bounds, steps)?;
    let grid = item_grid.make_room(
        alloc,
        &page.viewport(),
        reach.resizes,
        page.number_limit(),
        changes.as_slice(),
    )?;
    Ok((changes, grid))
}
