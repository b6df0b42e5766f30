ghost use Rattle.std.specs.Prelude.{◌≡◌, ◌+◌, ◌*◌, ◌%◌, ◌^◌, ◌<◌, ◌≤◌, length, slice_index_or, slice_set, OnOk};

use crate::memory::OutOfMemory;
use std::alloc::Global;
use std::marker::Model;

// How many items have places that are kept. An item with this number or a greater one is searched for in its cells, so
// that one item with a great number doesn't take a table of that length.
const ITEMS: u32 = 1 << 20;

// Which of an item's cells a cell is. An item's cells lie in two columns and two rows at most, which are next to each
// other; so no two of them agree both in whether their column is even and in whether their row is.
pub(crate) fn corner_of(column: usize, row: usize) -> u8
    ensures corner { result ≡ 2 * (row % 2) + column % 2 }
    ensures four { result < 4 }
{
    (2 * (row % 2) + column % 2) as u8
}

/// Where items stand in the lists of their cells: for each item and each corner of its cells a place. It is a hint,
/// and whoever asks for it looks whether the item does stand there: the speed of the grid rests on this table, and
/// nothing that it promises.
#[derive(Drop)]
pub(crate) struct Places {
    places: Vec<usize>,
}

impl Model for Places {
    ghost use Rattle.std.specs.Prelude.{List, ℕ};

    ghost Value = { List ℕ };

    ghost view = { λ places. places.places.items };
}

impl Places {
    pub fn new(alloc: Global) -> Places {
        Places {
            places: Vec::new(alloc),
        }
    }

    // Makes room for the places of an item.
    pub fn make_room(&mut self, item: u32) -> Result<(), OutOfMemory>
        ensures room { OnOk result (item < 2 ^ 20 → 4 * item + 4 ≤ length self.new) }
    {
        let wanted = 4 * item as usize + 4;
        if item < ITEMS && self.places.len() < wanted {
            self.places.resize(wanted, 0)?;
        }
        Ok(())
    }

    // The place that is kept for an item in a cell of this corner.
    pub fn place(&self, item: u32, corner: u8) -> usize
        ensures { result ≡ slice_index_or self.now (4 * item + corner) 0 }
    {
        match self.places.get(4 * item as usize + usize::from(corner)) {
            Some(&place) => place,
            None => 0,
        }
    }

    // Keeps the place of an item in a cell of this corner, if there is room for it.
    pub fn keep(&mut self, item: u32, corner: u8, place: usize)
        ensures { self.new ≡ slice_set self.old (4 * item + corner) place }
    {
        if let Some(kept) = self.places.get_mut(4 * item as usize + usize::from(corner)) {
            *kept = place;
        }
    }
}
