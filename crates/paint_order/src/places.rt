ghost use Rattle.std.specs.Prelude.{◌≡◌, ◌≢◌, ℕ, ◌+◌, ◌≤◌, [], length, Some, slice_get, IfOk, vec_len, max};
ghost use Rattle.std.specs.List.{All};
ghost use Rattle.paint_order.specs.declared.entry.Entry.{Entry};
ghost use Rattle.paint_order.specs.declared.entry.Entry.TheVariants.{Item};
ghost use Rattle.paint_order.specs.Lists.{IsInRoom, AreDistinct};
ghost use Rattle.paint_order.specs.Places.{place, place_of};
ghost use Rattle.paint_order.specs.declared.place.Place.{Place};

use crate::entry::Entry;
use crate::memory::OutOfMemory;
use crate::place::Place;
use fractions::{Ledger, Steps};
use std::alloc::{AllocError, Global};
use std::marker::Model;

/// A place for each item and for each list, by their numbers: where it was last put. Until then it is one that
/// nobody asks for.
#[derive(Drop)]
pub struct Places {
    items: Vec<Place>,
    lists: Vec<Place>,
}

impl Model for Places {
    ghost use Rattle.paint_order.specs.Places.{PlaceTables};

    ghost Value = { PlaceTables };

    ghost view = { λ p. record { items = p.items.items; lists = p.lists.items } };
}

impl Places {
    /// Room for no item and for no list.
    pub fn new(alloc: Global) -> Places
        ensures { result ≡ record { items = []; lists = [] } }
    {
        Places {
            items: Vec::new(alloc),
            lists: Vec::new(alloc),
        }
    }

    /// Makes room for so many items and lists; the places that are there stay, whatever the answer.
    pub fn reserve(&mut self, items: u32, lists: u32) -> Result<(), OutOfMemory>
        ensures kept { (entry : Entry) (at : Place) → place_of self.old entry ≡ Some at
            → place_of self.new entry ≡ Some at }
        ensures items { IfOk result (λ _. length self.new.items ≡ max items (length self.old.items)) }
        ensures lists { IfOk result (λ _. length self.new.lists ≡ max lists (length self.old.lists)) }
        ensures no_fewer_items { length self.old.items ≤ length self.new.items }
        ensures no_fewer_lists { length self.old.lists ≤ length self.new.lists }
    {
        lengthen(&mut self.items, items as usize)?;
        lengthen(&mut self.lists, lists as usize)?;
        Ok(())
    }

    /// The place of an entry.
    pub fn of(&self, entry: Entry) -> Place
        requires { IsInRoom (length self.now.items) (length self.now.lists) entry }
        ensures { place_of self.now entry ≡ Some result }
    {
        match entry {
            Entry::Item { item } => self.items[item as usize],
            Entry::Sub { list } => self.lists[list as usize],
        }
    }

    /// The place of an item, or None for a number without room.
    pub fn of_item(&self, item: u32) -> Option<Place>
        ensures { result ≡ place_of self.now (Item item) }
    {
        self.items.get(item as usize).copied()
    }

    /// Writes the place of an entry, and no other.
    pub fn put(&mut self, entry: Entry, place: Place)
        requires { IsInRoom (length self.old.items) (length self.old.lists) entry }
        ensures put { place_of self.new entry ≡ Some place }
        ensures others { (other : Entry) → other ≢ entry → place_of self.new other ≡ place_of self.old other }
        ensures items { length self.new.items ≡ length self.old.items }
        ensures lists { length self.new.lists ≡ length self.old.lists }
    {
        match entry {
            Entry::Item { item } => self.items[item as usize] = place,
            Entry::Sub { list } => self.lists[list as usize] = place,
        }
    }

    /// Writes the place of each entry of a list, a step for each.
    pub fn put_all<L: Ledger>(&mut self, list: u32, entries: &[Entry], steps: &mut Steps<L>)
        requires room { All (IsInRoom (length self.old.items) (length self.old.lists)) entries.now }
        requires distinct { AreDistinct entries.now }
        ensures put { (k : ℕ) (entry : Entry) → slice_get entries.now k ≡ Some entry
            → place_of self.new entry ≡ Some (place list k) }
        ensures others { (other : Entry) → ((k : ℕ) → slice_get entries.now k ≢ Some other)
            → place_of self.new other ≡ place_of self.old other }
        ensures items { length self.new.items ≡ length self.old.items }
        ensures lists { length self.new.lists ≡ length self.old.lists }
        ensures cost { steps.new ≡ steps.old + length entries.now }
    {
        for (at, entry) in entries.iter().enumerate() {
            steps.tick();
            self.put(*entry, Place { list, at });
        }
    }
}

/// Lengthens a table of places to a length, where it is shorter.
fn lengthen(places: &mut Vec<Place>, len: usize) -> Result<(), AllocError>
    ensures kept { (k : ℕ) (at : Place) → slice_get places.old.items k ≡ Some at
        → slice_get places.new.items k ≡ Some at }
    ensures long { IfOk result (λ _. vec_len places.new ≡ max len (vec_len places.old)) }
    ensures no_shorter { vec_len places.old ≤ vec_len places.new }
{
    if places.len() < len {
        places.resize(len, Place::default())?;
    }
    Ok(())
}
