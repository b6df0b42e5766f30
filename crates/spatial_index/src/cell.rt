ghost use Rattle.std.specs.Prelude.{◌≡◌, ℕ, ◌+◌, ◌<◌, ◌==◌, position, slice_get, Some, None, IfSome, OnOk};
ghost use Rattle.spatial_index.specs.Contents.{empty_cell, times, once_if};

use crate::memory::OutOfMemory;
use crate::places::Places;
use std::alloc::Global;
use std::marker::Model;

/// A cell: the items that stand in it, and room for as many more as were promised. Its corner says under which of
/// their places its items keep where they stand in it.
#[derive(Drop)]
pub(crate) struct Cell {
    items: Vec<u32>,
    promised: usize,
    corner: u8,
}

impl Model for Cell {
    ghost use Rattle.std.specs.Prelude.{◌+◌, ◌≤◌, vec_len, vec_capacity};
    ghost use Rattle.spatial_index.specs.Contents.{CellState};

    ghost Value = { CellState };

    ghost view = { λ cell. record { items = cell.items.items; spare = cell.promised } };

    ghost invariant = { λ cell. vec_len cell.items + cell.promised ≤ vec_capacity cell.items };
}

impl Cell {
    pub fn new(alloc: Global, corner: u8) -> Cell
        ensures { result ≡ empty_cell }
    {
        Cell {
            items: Vec::new(alloc),
            promised: 0,
            corner,
        }
    }

    pub fn items(&self) -> &[u32]
        ensures { result.now ≡ self.now.items }
    {
        &self.items
    }

    // Takes back what was promised, so that the next promise is the first. The memory stays.
    pub fn forget(&mut self)
        ensures items { self.new.items ≡ self.old.items }
        ensures spare { self.new.spare ≡ 0 }
    {
        self.promised = 0;
    }

    // Makes room for one item more than was promised.
    pub fn promise(&mut self) -> Result<(), OutOfMemory>
        ensures items { self.new.items ≡ self.old.items }
        ensures spare { OnOk result (self.new.spare ≡ self.old.spare + 1) }
    {
        let Some(wanted) = self.promised.checked_add(1) else {
            return Err(OutOfMemory);
        };
        self.items.reserve(wanted)?;
        self.promised = wanted;
        Ok(())
    }

    // Puts an item in, for which room was promised.
    pub fn put(&mut self, item: u32, places: &mut Places)
        requires { 0 < self.old.spare }
        ensures items { (other : ℕ) → times other self.new.items ≡ times other self.old.items + once_if (item == other) }
        ensures spare { self.new.spare + 1 ≡ self.old.spare }
    {
        places.keep(item, self.corner, self.items.len());
        self.items.push_reserved(item);
        self.promised -= 1;
    }

    // Takes an item out that stands in the cell. The last one takes its place.
    pub fn take_out(&mut self, item: u32, places: &mut Places)
        requires { 0 < times item self.old.items }
        ensures items { (other : ℕ) → times other self.new.items + once_if (item == other) ≡ times other self.old.items }
        ensures spare { self.new.spare ≡ self.old.spare }
    {
        let hint = places.place(item, self.corner);
        if let Some(place) = place_of(&self.items, item, hint) {
            if let Some(&last) = self.items.last() {
                places.keep(last, self.corner, place);
            }
            self.items.swap_remove(place);
        }
    }
}

// A place at which an item stands: the one that is hinted at, or else the first.
fn place_of(items: &[u32], item: u32, hint: usize) -> Option<usize>
    ensures there { IfSome result (λ place. slice_get items.now place ≡ Some item) }
    ensures nowhere { result ≡ None → times item items.now ≡ 0 }
{
    if items.get(hint) == Some(&item) {
        return Some(hint);
    }
    first_place_of(items, item)
}

// Where an item stands first.
fn first_place_of(items: &[u32], item: u32) -> Option<usize>
    ensures { result ≡ position (λ other. other == item) items.now }
{
    items.iter().position(|other| *other == item)
}
