ghost use Rattle.std.specs.Prelude.{◌≡◌, ℕ, ◌+◌, ◌≤◌, ◌<◌, ◌==◌, length, slice_index_or, replicate, All, IfOk, OnOk, is_ok};
ghost use Rattle.spatial_index.specs.Contents.{empty_cell, times};
ghost use Rattle.spatial_index.specs.Levels.{AreIn, HaveRoom, Stand, HasSameItems, HasPut, HasTaken, HasForgotten, HasPromised};

use crate::cell::Cell;
use crate::memory::OutOfMemory;
use crate::places::{Places, corner_of};
use std::alloc::Global;
use std::marker::Model;

/// The cells of one level, in the order of their numbers.
#[derive(Drop)]
pub(crate) struct Level {
    cells: Vec<Cell>,
}

impl Model for Level {
    ghost use Rattle.std.specs.Prelude.{List};
    ghost use Rattle.spatial_index.specs.Contents.{CellState};

    ghost Value = { List CellState };

    ghost view = { λ level. level.cells.items };
}

impl Level {
    // So many empty cells, in rows of this length.
    pub fn new(alloc: Global, columns: usize, count: usize) -> Result<Level, OutOfMemory>
        requires { 0 < columns }
        ensures { IfOk result (λ level. level ≡ replicate count empty_cell) }
    {
        let mut cells = Vec::with_capacity(alloc, count)?;
        for number in 0..count {
            let corner = corner_of(number % columns, number / columns);
            cells.push_reserved(Cell::new(alloc, corner));
        }
        Ok(Level { cells })
    }

    // The items of a cell.
    pub fn items(&self, number: usize) -> &[u32]
        requires { number < length self.now }
        ensures { result.now ≡ (slice_index_or self.now number empty_cell).items }
    {
        let cell = &self.cells[number];
        cell.items()
    }

    // Takes back what was promised in these cells.
    pub fn forget(&mut self, numbers: &[u32])
        requires { AreIn self.old numbers.now }
        ensures same_items { HasSameItems self.old self.new }
        ensures forgotten { HasForgotten self.old self.new numbers.now }
    {
        let cells = &mut self.cells;
        for &number in numbers {
            let cell = &mut cells[number as usize];
            cell.forget();
        }
    }

    // Makes room for one item more in each of these cells.
    pub fn promise(&mut self, numbers: &[u32]) -> Result<(), OutOfMemory>
        requires { AreIn self.old numbers.now }
        ensures same_items { HasSameItems self.old self.new }
        ensures promised { OnOk result (HasPromised self.old self.new numbers.now) }
    {
        let cells = &mut self.cells;
        for &number in numbers {
            let cell = &mut cells[number as usize];
            cell.promise()?;
        }
        Ok(())
    }

    // Puts an item into each of these cells, which were promised room.
    pub fn put(&mut self, numbers: &[u32], item: u32, places: &mut Places)
        requires cells { AreIn self.old numbers.now }
        requires room { HaveRoom self.old numbers.now }
        ensures { HasPut self.old self.new numbers.now item }
    {
        let cells = &mut self.cells;
        for &number in numbers {
            let cell = &mut cells[number as usize];
            cell.put(item, places);
        }
    }

    // Takes an item out of each of these cells, in which it stands.
    pub fn take_out(&mut self, numbers: &[u32], item: u32, places: &mut Places)
        requires cells { AreIn self.old numbers.now }
        requires there { Stand self.old numbers.now item }
        ensures { HasTaken self.old self.new numbers.now item }
    {
        let cells = &mut self.cells;
        for &number in numbers {
            let cell = &mut cells[number as usize];
            cell.take_out(item, places);
        }
    }
}
