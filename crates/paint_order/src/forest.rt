ghost use Rattle.std.specs.Prelude.{◌≡◌, ◌≢◌, ◌+◌, ◌<◌, ◌≤◌, ℕ, [], ◌∷◌, ◌++◌, length, Some, None, IsSome, IfOk, IfErr, replicate, slice_set, vec_len, ◌-◌, is_some, if◌then◌else◌, IsTrue, ◌↔◌, slice_get};
ghost use Rattle.std.specs.List.{All};
ghost use Rattle.paint_order.specs.declared.entry.Entry.TheVariants.{Item};
ghost use Rattle.paint_order.specs.Lists.{list_under, entries_of, Stands, StandsAt, IsInRoom, AreDistinct, StandNowhereElse};
ghost use Rattle.paint_order.specs.Order.{flattened, is_earlier, is_member, IsWhole, NestWithin};
ghost use Rattle.paint_order.specs.Paths.{LeadsTo, LeadsOn};
ghost use Rattle.paint_order.specs.State.{list_room};

use crate::entry::Entry;
use crate::memory::OutOfMemory;
use crate::path::Path;
use crate::place::Place;
use crate::places::Places;
use fractions::{Ledger, Steps};
use std::alloc::{AllocError, Global};
use std::marker::Model;

/// How deep lists may nest.
const MOST_LEVELS: usize = 256;

/// How many lists most ways go through at most: such a way needs no room of 256 numbers.
const SHORT: usize = 16;

/// The entries of a list from bottom to top; contracts see the list.
#[derive(Drop)]
struct Entries(Vec<Entry>);

impl Model for Entries {
    ghost use Rattle.std.specs.Prelude.{List};
    ghost use Rattle.paint_order.specs.declared.entry.Entry.{Entry};

    ghost Value = { List Entry };

    ghost view = { λ e. e.0.items };
}

/// Lists of items and of lists, under numbers, with one root list. Contracts see the lists, the root list's number and
/// the room, which is one past the greatest item number and list number that may be used. The places of the entries
/// are kept beside the lists, so that a comparison reads no list.
#[derive(Drop)]
pub struct Forest {
    root: u32,
    lists: Vec<Option<Entries>>,
    places: Places,
}

impl Model for Forest {
    ghost use Rattle.std.specs.Prelude.{length};
    ghost use Rattle.paint_order.specs.State.{State, IsKept};

    ghost Value = { State };

    ghost view = { λ f. record { lists = f.lists.items; root = f.root; item_room = length f.places.items } };

    ghost invariant = { λ f. IsKept f.lists.items f.places f.root };
}

impl Forest {
    /// A forest with an empty root list of this number, no other list, room for the list numbers up to it and for
    /// no item.
    pub fn new(alloc: Global, root: u32) -> Result<Forest, OutOfMemory>
        requires { root ≤ 1_048_576 }
        ensures { IfOk result (λ forest. forest ≡ record {
          lists = slice_set (replicate (root + 1) None) root (Some []);
          root = root;
          item_room = 0;
        }) }
    {
        let mut places = Places::new(alloc);
        places.reserve(0, root + 1)?;
        let mut lists = Vec::new(alloc);
        lengthen(&mut lists, root as usize + 1)?;
        lists[root as usize] = Some(Entries(Vec::new(alloc)));
        Ok(Forest {
            root,
            lists,
            places,
        })
    }

    /// Makes room for the item numbers below `items` and the list numbers below `lists`. The lists and the root list
    /// stay as they are, whatever the answer.
    pub fn reserve(&mut self, items: u32, lists: u32) -> Result<(), OutOfMemory>
        ensures lists { (n : ℕ) → list_under self.new.lists n ≡ list_under self.old.lists n }
        ensures root { self.new.root ≡ self.old.root }
        ensures item_room { IfOk result (λ _. items ≤ self.new.item_room) }
        ensures list_room { IfOk result (λ _. lists ≤ list_room self.new) }
        ensures no_fewer_items { self.old.item_room ≤ self.new.item_room }
        ensures no_fewer_lists { list_room self.old ≤ list_room self.new }
    {
        self.places.reserve(items, lists)?;
        lengthen(&mut self.lists, lists as usize)?;
        Ok(())
    }

    /// Puts the entries under the number of the list, in place of those that stood there. All else stays. The numbers
    /// are within the room, no entry comes twice, and none stands in another list. A step for each entry.
    pub fn put_list<L: Ledger>(&mut self, list: u32, entries: Vec<Entry>, steps: &mut Steps<L>)
        requires list { list < list_room self.old }
        requires room { All (IsInRoom self.old.item_room (list_room self.old)) entries.items }
        requires distinct { AreDistinct entries.items }
        requires nowhere_else { StandNowhereElse self.old.lists list entries.items }
        ensures put { self.new ≡ record self.old { lists = slice_set self.old.lists list (Some entries.items) } }
        ensures cost { steps.new ≡ steps.old + length entries.items }
    {
        self.places.put_all(list, &entries, steps);
        self.lists[list as usize] = Some(Entries(entries));
    }

    /// Drops a list that isn't the root list. All else stays. One step.
    pub fn drop_list<L: Ledger>(&mut self, list: u32, steps: &mut Steps<L>)
        requires stands { IsSome (list_under self.old.lists list) }
        requires not_root { list ≢ self.old.root }
        ensures gone { self.new ≡ record self.old { lists = slice_set self.old.lists list None } }
        ensures cost { steps.new ≡ steps.old + 1 }
    {
        steps.tick();
        self.lists[list as usize] = None;
    }

    /// Makes a list the root list. All else stays.
    pub fn set_root(&mut self, list: u32)
        requires { IsSome (list_under self.old.lists list) }
        ensures { self.new ≡ record self.old { root = list } }
    {
        self.root = list;
    }

    /// Whether an item stands in a list, which in a whole forest means: in the flattened root list. One step.
    pub fn stands<L: Ledger>(&self, item: u32, steps: &mut Steps<L>) -> bool
        ensures stands { IsTrue result ↔ Stands self.now.lists (Item item) }
        ensures painted { IsWhole self.now.lists self.now.root → NestWithin 256 self.now.lists
            → result ≡ is_member item (flattened 256 self.now.lists self.now.root) }
        ensures cost { steps.new ≡ steps.old + 1 }
    {
        steps.tick();
        match self.places.of_item(item) {
            None => false,
            Some(place) => self.stands_at(item, place),
        }
    }

    /// Whether an item stands at a place.
    fn stands_at(&self, item: u32, place: Place) -> bool
        ensures { IsTrue result ↔ StandsAt self.now.lists (Item item) place.list place.at }
    {
        match self.entry_at(place) {
            Some(Entry::Item { item: there }) => there == item,
            _ => false,
        }
    }

    /// The entry that stands at a place, None where there is none.
    fn entry_at(&self, place: Place) -> Option<Entry>
        ensures { result ≡ slice_get (entries_of self.now.lists place.list) place.at }
    {
        match self.lists.get(place.list as usize) {
            Some(Some(entries)) => entries.0.get(place.at).copied(),
            _ => None,
        }
    }

    /// Whether item `i` comes earlier than item `j` in the flattened root list, in which each list is replaced by its
    /// entries. Both stand in a list; each list other than the root list stands in a list too, so that every way up
    /// ends at the root list; and lists nest at most 256 deep. At most 512 steps: one for each item and each list
    /// whose place is read.
    pub fn before<L: Ledger>(&self, i: u32, j: u32, steps: &mut Steps<L>) -> bool
        requires whole { IsWhole self.now.lists self.now.root }
        requires shallow { NestWithin 256 self.now.lists }
        requires first { Stands self.now.lists (Item i) }
        requires second { Stands self.now.lists (Item j) }
        ensures earlier { result ≡ is_earlier i j (flattened 256 self.now.lists self.now.root) }
        ensures cost { steps.new ≤ steps.old + 512 }
        ensures counts { steps.old ≤ steps.new }
    {
        steps.tick();
        let first = self.places.of(Entry::Item { item: i });
        steps.tick();
        let second = self.places.of(Entry::Item { item: j });
        if first.list == second.list {
            return first.at < second.at;
        }
        let mut first_way = Path::<SHORT>::new();
        let first_on = self.climb(first, &mut first_way, steps);
        let mut second_way = Path::<SHORT>::new();
        let second_on = self.climb(second, &mut second_way, steps);
        if let (None, None) = (first_on, second_on) {
            return first_way.numbers() < second_way.numbers();
        }
        self.is_before_on_long_ways(&first_way, first_on, &second_way, second_on, steps)
    }

    /// The same, where a climb with short paths came to the root list on one of the two ways at most. It is apart so
    /// that room for long ways is made ready here alone.
    #[cold]
    #[inline(never)]
    fn is_before_on_long_ways<L: Ledger>(
        &self,
        first_way: &Path<SHORT>,
        first_on: Option<Place>,
        second_way: &Path<SHORT>,
        second_on: Option<Place>,
        steps: &mut Steps<L>,
    ) -> bool
        requires whole { IsWhole self.now.lists self.now.root }
        requires shallow { NestWithin 256 self.now.lists }
        requires first { (i : ℕ) × LeadsOn self.now.lists self.now.root first_on first_way.now i }
        requires second { (j : ℕ) × LeadsOn self.now.lists self.now.root second_on second_way.now j }
        ensures earlier { (i j : ℕ) → LeadsOn self.now.lists self.now.root first_on first_way.now i
            → LeadsOn self.now.lists self.now.root second_on second_way.now j
            → result ≡ is_earlier i j (flattened 256 self.now.lists self.now.root) }
        ensures cost { steps.new + (length first_way.now + length second_way.now)
            + ((if is_some first_on then 1 else 0) + (if is_some second_on then 1 else 0)) ≤ steps.old + 512 }
        ensures counts { steps.old ≤ steps.new }
    {
        let _root = self.root;
        let first_path = self.whole_path(first_way, first_on, steps);
        let second_path = self.whole_path(second_way, second_on, steps);
        first_path.numbers() < second_path.numbers()
    }

    /// Goes up from a place below which the path leads on, and puts the numbers of the entries at the front of the
    /// path, until it comes to the root list or the path is full. It answers the next place, or None at the root
    /// list; a step for each list whose place is read.
    fn climb<L: Ledger, const MOST: usize>(
        &self,
        from: Place,
        path: &mut Path<MOST>,
        steps: &mut Steps<L>,
    ) -> Option<Place>
        requires whole { IsWhole self.now.lists self.now.root }
        requires shallow { NestWithin 256 self.now.lists }
        requires item { (i : ℕ) × LeadsTo self.now.lists from.list (from.at ∷ path.old) i }
        ensures leads { (i : ℕ) → LeadsTo self.now.lists from.list (from.at ∷ path.old) i
            → LeadsOn self.now.lists self.now.root result path.new i }
        ensures full { IsSome result → length path.new ≡ MOST }
        ensures cost { steps.new + length path.old + (if is_some result then 0 else 1) ≡ steps.old + length path.new }
        ensures counts { steps.old ≤ steps.new }
    {
        let mut above = from;
        for _ in 0..path.room() {
            path.push_front(above.at);
            if above.list == self.root {
                return None;
            }
            steps.tick();
            above = self.places.of(Entry::Sub { list: above.list });
        }
        Some(above)
    }

    /// The whole way down from the root list, where a climb with a short path came to the place `on`.
    fn whole_path<L: Ledger>(
        &self,
        way: &Path<SHORT>,
        on: Option<Place>,
        steps: &mut Steps<L>,
    ) -> Path<MOST_LEVELS>
        requires whole { IsWhole self.now.lists self.now.root }
        requires shallow { NestWithin 256 self.now.lists }
        requires item { (i : ℕ) × LeadsOn self.now.lists self.now.root on way.now i }
        ensures leads { (i : ℕ) → LeadsOn self.now.lists self.now.root on way.now i
            → LeadsTo self.now.lists self.now.root result i }
        ensures cost { steps.new + length way.now + (if is_some on then 1 else 0) ≡ steps.old + length result }
        ensures counts { steps.old ≤ steps.new }
    {
        let mut path = way.with_room::<MOST_LEVELS>();
        match on {
            None => path,
            Some(place) => {
                self.climb(place, &mut path, steps);
                path
            }
        }
    }
}

/// Lengthens a table of lists to a length, where it is shorter, by numbers without a list.
fn lengthen(lists: &mut Vec<Option<Entries>>, len: usize) -> Result<(), AllocError>
    ensures ok { IfOk result (λ _. lists.new.items ≡ lists.old.items ++ replicate (len - vec_len lists.old) None) }
    ensures err { IfErr result (λ _. lists.new.items ≡ lists.old.items) }
{
    let missing = len.saturating_sub(lists.len());
    lists.reserve(missing)?;
    for _ in 0..missing {
        lists.push_reserved(None);
    }
    Ok(())
}
