ghost use Rattle.std.specs.Prelude.{◌≡◌, ℕ, ◌+◌, ◌-◌, ◌*◌, ◌≤◌, ◌<◌, ℤ, pos, ◌≤ℤ◌, take, drop, replicate, length, slice_index, if◌then◌else◌, IfOk, OnOk, All};
ghost use Rattle.fractions.specs.Rect.{IsEmpty};
ghost use Rattle.spatial_index.specs.Cells.{IsCell, IsSide, IsEmptyOrInside, line_of, line_count, cell_number, level_of, is_met, cells_met};
ghost use Rattle.spatial_index.specs.Contents.{cell_at, times, once_if, StandsBy, StandsNowhere, StandsAlike, IsReserved, HasRoomForNoMore, AreOfDistinctItems, AreOfOthers};
ghost use Rattle.spatial_index.specs.Moves.{IsPlan, PutsIn, TakesOut, KeepsItems, HasNoRoomFor, HasMoreRoom, HasRoomFor, Moves};

use crate::change::Change;
use crate::level::Level;
use crate::memory::OutOfMemory;
use crate::places::Places;
use crate::plan::{Cells, cells_met, line_of};
use fractions::{Ledger, Rect, Steps};
use std::alloc::Global;
use std::marker::Model;

// How many levels a grid has.
const LEVELS: u8 = 10;

// The bounds of an item that stands in no cell.
const NOWHERE: Rect = Rect {
    l: 0,
    t: 0,
    r: 0,
    b: 0,
};

/// Items in the cells of ten levels over a region.
#[derive(Drop)]
pub struct Grid {
    width: i64,
    height: i64,
    levels: Vec<Level>,
    places: Places,
}

impl Model for Grid {
    ghost use Rattle.spatial_index.specs.Contents.{GridState};

    ghost Value = { GridState };

    ghost use Rattle.spatial_index.specs.Moves.{IsGrid};

    ghost view = { λ grid. record { region = record { width = grid.width; height = grid.height }; levels = grid.levels.items } };

    ghost invariant = { λ grid. IsGrid (record { region = record { width = grid.width; height = grid.height }; levels = grid.levels.items }) };
}

impl Grid {
    /// A grid without an item over the region `[0, w + 1) x [0, h + 1)`, in units.
    pub fn new(alloc: Global, w: i64, h: i64) -> Result<Grid, OutOfMemory>
        requires width { IsSide w }
        requires height { IsSide h }
        ensures region { IfOk result (λ grid. grid.region ≡ record { width = w; height = h }) }
        ensures empty { IfOk result (λ grid. (item : ℕ) → StandsNowhere grid item) }
    {
        let mut levels = Vec::with_capacity(alloc, usize::from(LEVELS))?;
        for level in 0..LEVELS {
            let columns = line_of(level, w) as usize + 1;
            let rows = line_of(level, h) as usize + 1;
            levels.push_reserved(Level::new(alloc, columns, rows * columns)?);
        }
        Ok(Grid {
            width: w,
            height: h,
            levels,
            places: Places::new(alloc),
        })
    }

    /// The cells that bounds meet, at the least level whose cell side is at least their width and height. Level and
    /// count are 0 where the bounds are empty.
    pub fn plan(&self, bounds: &Rect) -> Cells
        requires { IsEmptyOrInside self.now.region bounds.now }
        ensures level { result.level ≡ level_of bounds.now }
        ensures cells { take result.count result.cells ≡ cells_met self.now.region.width bounds.now }
        ensures count { result.count ≤ 4 }
        ensures rising { (i : ℕ) → i + 1 < result.count → slice_index result.cells i < slice_index result.cells (i + 1) }
        ensures rest { drop result.count result.cells ≡ replicate (4 - result.count) 0 }
        ensures none { IsEmpty bounds.now → result.count ≡ 0 }

        // Which cells these are: those that `is_met` says, each once.
        ensures met { (column row : ℕ) → column < line_count result.level self.now.region.width →
            times (cell_number self.now.region.width result.level column row) (take result.count result.cells) ≡ once_if (is_met bounds.now result.level column row) }

        // They are cells of the grid.
        ensures top_level { result.level ≤ 9 }
        ensures within { All (λ number. number < line_count result.level self.now.region.height * line_count result.level self.now.region.width) (take result.count result.cells) }
    {
        cells_met(self.width, bounds)
    }

    /// Lends the items of the cell that holds the point, in some order. It takes one step.
    pub fn visit<L: Ledger>(&self, x: i64, y: i64, level: u8, steps: &mut Steps<L>) -> &[u32]
        requires level { level ≤ 9 }
        requires from_left { pos 0 ≤ℤ x }
        requires to_right { x ≤ℤ self.now.region.width }
        requires from_top { pos 0 ≤ℤ y }
        requires to_bottom { y ≤ℤ self.now.region.height }
        ensures items { result.now ≡ (cell_at self.now level (line_of level x) (line_of level y)).items }
        ensures cell { IsCell self.now.region level (line_of level x) (line_of level y) }
        ensures cost { steps.new ≡ steps.old + 1 }
    {
        steps.tick();
        let columns = line_of(level, self.width) as usize + 1;
        let number = line_of(level, y) as usize * columns + line_of(level, x) as usize;
        let level = &self.levels[usize::from(level)];
        level.items(number)
    }

    /// Makes room for changes, so that they can be applied. The cells stay as they are, also where memory is refused.
    /// Room that was made before for changes that were never applied doesn't add to it.
    pub fn reserve(&mut self, changes: &[Change]) -> Result<(), OutOfMemory>
        requires { All (λ change. IsEmptyOrInside self.old.region change.new) changes.now }
        ensures same { KeepsItems self.old self.new }
        ensures reserved { OnOk result (IsReserved self.new changes.now) }
        ensures no_more { OnOk result (HasRoomForNoMore self.old self.new changes.now) }
    {
        for change in changes {
            self.forget(&change.new);
        }
        for change in changes {
            self.promise(change)?;
        }
        Ok(())
    }

    /// Takes each item out of the cells of its old bounds, and puts it into those of its new ones. It takes no memory,
    /// and one step for each change.
    pub fn apply<L: Ledger>(&mut self, changes: &[Change], steps: &mut Steps<L>)
        requires reserved { IsReserved self.old changes.now }
        requires distinct { AreOfDistinctItems changes.now }
        requires old_bounds { All (λ change. IsEmptyOrInside self.old.region change.old) changes.now }
        requires new_bounds { All (λ change. IsEmptyOrInside self.old.region change.new) changes.now }
        requires there { All (λ change. StandsBy self.old change.item change.old) changes.now }
        ensures region { self.new.region ≡ self.old.region }
        ensures moved { All (λ change. StandsBy self.new change.item change.new) changes.now }
        ensures others { (item : ℕ) → AreOfOthers item changes.now → StandsAlike self.old self.new item }
        ensures cost { steps.new ≡ steps.old + length changes.now }
    {
        for change in changes {
            self.carry_out(change);
            steps.tick();
        }
    }

    /// A grid over the region `[0, w + 1) x [0, h + 1)`, in units, with each item by its new bounds, and no other item.
    pub fn rebuilt(alloc: Global, w: i64, h: i64, items: &[Change]) -> Result<Grid, OutOfMemory>
        requires width { IsSide w }
        requires height { IsSide h }
        requires distinct { AreOfDistinctItems items.now }
        requires new_bounds { All (λ change. IsEmptyOrInside (record { width = w; height = h }) change.new) items.now }
        ensures region { IfOk result (λ grid. grid.region ≡ record { width = w; height = h }) }
        ensures items { IfOk result (λ grid. All (λ change. StandsBy grid change.item change.new) items.now) }
        ensures no_other { IfOk result (λ grid. (item : ℕ) → AreOfOthers item items.now → StandsNowhere grid item) }
    {
        let mut grid = Grid::new(alloc, w, h)?;
        grid.reserve(items)?;
        for item in items {
            grid.carry_out(&Change {
                item: item.item,
                old: NOWHERE,
                new: item.new,
            });
        }
        Ok(grid)
    }

    // Takes back what was promised for bounds.
    fn forget(&mut self, bounds: &Rect)
        requires { IsEmptyOrInside self.old.region bounds.now }
        ensures same { KeepsItems self.old self.new }
        ensures forgotten { HasNoRoomFor self.old self.new bounds.now }
    {
        let plan = self.plan(bounds);
        let level = &mut self.levels[usize::from(plan.level)];
        level.forget(&plan.cells[..usize::from(plan.count)]);
    }

    // Makes room for the item of a change by its new bounds, beside what was promised before.
    fn promise(&mut self, change: &Change) -> Result<(), OutOfMemory>
        requires { IsEmptyOrInside self.old.region change.now.new }
        ensures same { KeepsItems self.old self.new }
        ensures room { OnOk result (HasMoreRoom self.old self.new change.now.new) }
    {
        let plan = self.plan(&change.new);
        self.places.make_room(change.item)?;
        let level = &mut self.levels[usize::from(plan.level)];
        level.promise(&plan.cells[..usize::from(plan.count)])
    }

    // Takes an item from its old cells to its new ones, in which room was promised. Where they are the same ones, it
    // stays as it stands.
    fn carry_out(&mut self, change: &Change)
        requires old_bounds { IsEmptyOrInside self.old.region change.now.old }
        requires new_bounds { IsEmptyOrInside self.old.region change.now.new }
        requires there { StandsBy self.old change.now.item change.now.old }
        requires room { HasRoomFor self.old change.now.new }
        ensures { Moves self.old self.new change.now }
    {
        let old = self.plan(&change.old);
        let new = self.plan(&change.new);
        if old != new {
            self.take_out(change, &old);
            self.put(change, &new);
        }
    }

    // Takes the item of a change out of the cells that its old bounds meet.
    fn take_out(&mut self, change: &Change, plan: &Cells)
        requires count { plan.now.count ≤ 4 }
        requires plan { IsPlan self.old change.now.old plan.now.level (take plan.now.count plan.now.cells) }
        requires there { StandsBy self.old change.now.item change.now.old }
        ensures { TakesOut self.old self.new change.now.item change.now.old }
    {
        let level = &mut self.levels[usize::from(plan.level)];
        let numbers = &plan.cells[..usize::from(plan.count)];
        level.take_out(numbers, change.item, &mut self.places);
    }

    // Puts the item of a change into the cells that its new bounds meet.
    fn put(&mut self, change: &Change, plan: &Cells)
        requires count { plan.now.count ≤ 4 }
        requires plan { IsPlan self.old change.now.new plan.now.level (take plan.now.count plan.now.cells) }
        requires room { HasRoomFor self.old change.now.new }
        ensures { PutsIn self.old self.new change.now.item change.now.new }
    {
        let level = &mut self.levels[usize::from(plan.level)];
        let numbers = &plan.cells[..usize::from(plan.count)];
        level.put(numbers, change.item, &mut self.places);
    }
}

#[cfg(test)]
mod tests;
