// Where the items of a page stand in its viewport: a grid in whose cells they do, and the bounds by which they do.
ghost use Rattle.std.specs.Prelude.{◌≡◌, ◌+◌, ◌<◌, ◌≤◌, ℕ, [], length, All, IsFalse, IfOk, OnOk};
ghost use Rattle.affine.specs.Hull.{no_rect};
ghost use Rattle.box_tree.specs.Contents.{IsViewport};
ghost use Rattle.spatial_index.specs.Cells.{IsSide, IsEmptyOrInside};
ghost use Rattle.spatial_index.specs.Contents.{IsReserved, AreOfDistinctItems, AreOfOthers};
ghost use Rattle.tree_edits.specs.Cells.{region_of, rect_under, IsGridBy};
ghost use Rattle.tree_edits.specs.Changes.{placed_by};
ghost use Rattle.tree_edits.specs.ItemGrid.{IsReadyFor, IsGridWith, MayExchangeItems, StandAsBefore, region_after};

use crate::bounds::NOWHERE;
use crate::memory::OutOfMemory;
use box_tree::Viewport;
use fractions::{Ledger, Rect, Steps};
use spatial_index::{Change, Grid};
use std::alloc::Global;
use std::marker::Model;

/// A grid in which each item stands by the bounds that are kept under its number.
#[derive(Drop)]
pub(crate) struct ItemGrid {
    grid: Grid,
    bounds: Vec<Rect>,
}

impl Model for ItemGrid {
    ghost use Rattle.tree_edits.specs.Cells.{IsGridBy};
    ghost use Rattle.tree_edits.specs.ItemGrid.{ItemGridState};

    ghost Value = { ItemGridState };

    ghost view = { λ kept. record { grid = kept.grid; bounds = kept.bounds.items } };

    ghost invariant = { λ kept. IsGridBy kept.grid kept.bounds.items };
}

impl ItemGrid {
    /// A grid without an item over the whole points of a viewport of these sides, in units.
    pub(crate) fn new(alloc: Global, w: i64, h: i64) -> Result<ItemGrid, OutOfMemory>
        requires width { IsSide w }
        requires height { IsSide h }
        ensures region { IfOk result (λ kept. kept.grid.region ≡ record { width = w; height = h }) }
        ensures bounds { IfOk result (λ kept. kept.bounds ≡ []) }
    {
        let grid = Grid::new(alloc, w, h)?;
        Ok(ItemGrid {
            grid,
            bounds: Vec::new(alloc),
        })
    }

    /// The grid.
    pub(crate) fn grid(&self) -> &Grid
        ensures { result.now ≡ self.now.grid }
    {
        &self.grid
    }

    /// The bounds under the numbers.
    pub(crate) fn bounds(&self) -> &[Rect]
        ensures { result.now ≡ self.now.bounds }
    {
        self.bounds.as_slice()
    }

    /// Each number stands by its bounds.
    pub(crate) fn soundness(&self)
        ensures { IsGridBy self.now.grid self.now.bounds }
    {
        let _ = &self.bounds;
    }

    /// Makes room for changes and for the numbers below a limit, and for a viewport with new sides a grid in which the items of
    /// the changes stand. The items stand as they did, whatever the answer.
    pub(crate) fn make_room(
        &mut self,
        alloc: Global,
        viewport: &Viewport,
        resizes: bool,
        limit: u32,
        changes: &[Change],
    ) -> Result<Option<Grid>, OutOfMemory>
        requires viewport { IsViewport viewport.now }
        requires distinct { AreOfDistinctItems changes.now }
        requires inside { All (λ change. IsEmptyOrInside (region_of viewport.now) change.new) changes.now }
        requires region { IsFalse resizes → self.old.grid.region ≡ region_of viewport.now }
        ensures same { StandAsBefore self.old self.new }
        ensures long { OnOk result (limit ≤ length self.new.bounds) }
        ensures ready { IfOk result (λ fresh. IsReadyFor changes.now (region_of viewport.now) resizes self.new.grid fresh) }
    {
        self.lengthen(limit)?;
        if resizes {
            let grid = Grid::rebuilt(alloc, viewport.w, viewport.h, changes)?;
            Ok(Some(grid))
        } else {
            self.reserve(changes)?;
            Ok(None)
        }
    }

    // Makes slots for the bounds under the numbers below a limit.
    fn lengthen(&mut self, limit: u32) -> Result<(), OutOfMemory>
        ensures grid { self.new.grid ≡ self.old.grid }
        ensures same { StandAsBefore self.old self.new }
        ensures long { OnOk result (limit ≤ length self.new.bounds) }
    {
        lengthen(&mut self.bounds, limit as usize)
    }

    // Makes room in the cells for changes.
    fn reserve(&mut self, changes: &[Change]) -> Result<(), OutOfMemory>
        requires { All (λ change. IsEmptyOrInside self.old.grid.region change.new) changes.now }
        ensures bounds { self.new.bounds ≡ self.old.bounds }
        ensures same { StandAsBefore self.old self.new }
        ensures reserved { OnOk result (IsReserved self.new.grid changes.now) }
    {
        self.grid.reserve(changes)?;
        Ok(())
    }

    /// Takes each item of the changes to its new place, in the grid or with another one, in which the items of the changes alone
    /// stand, and puts its new bounds under its number. It takes no memory, and at most one step for each.
    pub(crate) fn exchange<L: Ledger>(
        &mut self,
        changes: &[Change],
        fresh: Option<Grid>,
        steps: &mut Steps<L>,
    )
        requires { MayExchangeItems self.old changes.now fresh }
        ensures region { self.new.grid.region ≡ region_after self.old.grid fresh }
        ensures bounds { (number : ℕ) → rect_under self.new.bounds number ≡ placed_by changes.now number (rect_under self.old.bounds number) }
        ensures room { length self.new.bounds ≡ length self.old.bounds }
    {
        match fresh {
            Some(grid) => self.replace(grid, changes),
            None => self.apply(changes, steps),
        }
    }

    // Takes each item of the changes to its new place in the grid, and puts its new bounds under its number.
    fn apply<L: Ledger>(&mut self, changes: &[Change], steps: &mut Steps<L>)
        requires reserved { IsReserved self.old.grid changes.now }
        requires distinct { AreOfDistinctItems changes.now }
        requires room { All (λ change. change.item < length self.old.bounds) changes.now }
        requires before { All (λ change. change.old ≡ rect_under self.old.bounds change.item) changes.now }
        requires inside { All (λ change. IsEmptyOrInside self.old.grid.region change.new) changes.now }
        ensures region { self.new.grid.region ≡ self.old.grid.region }
        ensures bounds { (number : ℕ) → rect_under self.new.bounds number ≡ placed_by changes.now number (rect_under self.old.bounds number) }
        ensures room { length self.new.bounds ≡ length self.old.bounds }
        ensures cost { steps.new ≡ steps.old + length changes.now }
    {
        self.grid.apply(changes, steps);
        put_bounds(&mut self.bounds, changes);
    }

    // Puts a new grid, in which the items of the changes alone stand, in the place of the one before, and the new bounds of
    // these items under their numbers.
    fn replace(&mut self, fresh: Grid, changes: &[Change])
        requires made { IsGridWith fresh.region changes.now fresh }
        requires distinct { AreOfDistinctItems changes.now }
        requires room { All (λ change. change.item < length self.old.bounds) changes.now }
        requires alone { (number : ℕ) → AreOfOthers number changes.now → rect_under self.old.bounds number ≡ no_rect }
        requires inside { All (λ change. IsEmptyOrInside fresh.region change.new) changes.now }
        ensures region { self.new.grid.region ≡ fresh.region }
        ensures bounds { (number : ℕ) → rect_under self.new.bounds number ≡ placed_by changes.now number (rect_under self.old.bounds number) }
        ensures room { length self.new.bounds ≡ length self.old.bounds }
    {
        self.grid = fresh;
        put_bounds(&mut self.bounds, changes);
    }
}

// Makes slots for bounds up to a length, of items that stand nowhere.
fn lengthen(bounds: &mut Vec<Rect>, len: usize) -> Result<(), OutOfMemory>
    ensures bounds { (number : ℕ) → rect_under bounds.new.items number ≡ rect_under bounds.old.items number }
    ensures no_shorter { length bounds.old.items ≤ length bounds.new.items }
    ensures long { OnOk result (len ≤ length bounds.new.items) }
{
    let missing = len.saturating_sub(bounds.len());
    bounds.reserve(missing)?;
    for _ in 0..missing {
        bounds.push_reserved(NOWHERE);
    }
    Ok(())
}

// Puts the new bounds of changes under the numbers of their items.
fn put_bounds(bounds: &mut Vec<Rect>, changes: &[Change])
    requires { All (λ change. change.item < length bounds.old.items) changes.now }
    ensures bounds { (number : ℕ) → rect_under bounds.new.items number ≡ placed_by changes.now number (rect_under bounds.old.items number) }
    ensures room { length bounds.new.items ≡ length bounds.old.items }
{
    for change in changes {
        bounds[change.item as usize] = change.new;
    }
}
