// The items of a page under their numbers.
ghost use Rattle.std.specs.Prelude.{◌≡◌, ◌+◌, ◌<◌, ◌≤◌, ◌++◌, ◌^◌, ℕ, List, [], length, take, drop, map, slice_index_or, slice_set, OnOk, sum_by, vec_len, vec_capacity};
ghost use Rattle.box_tree.specs.Numbers.{numbers_of, Names, IsNumber, HasSameItems};
ghost use Rattle.box_tree.specs.Planned.{times_in};
ghost use Rattle.box_tree.specs.Renumbered.{item_at, once_below, Gives, IsFilled, IsGrown, IsResized, IsTakenFrom, with_fewer, back_one, back_by, CanHaveAgain, CanGoBackBy};
ghost use Rattle.box_tree.specs.Sound.{AreSound};

use crate::item::{Item, Part};
use crate::kind::Kind;
use crate::node::IdList;
use smallvec::SmallVec;
use std::alloc::{AllocError, Global};
use std::marker::Model;
use std::mem::replace;

/// The numbers that the items of a node had before an edit.
#[derive(Drop)]
pub(crate) struct Earlier {
    pub(crate) id: u32,
    pub(crate) list: SmallVec<u32, 2>,
}

/// The memory that giving and taking numbers takes.
#[derive(Drop)]
pub(crate) struct Spare {
    /// Room for the numbers of a node.
    pub(crate) list: SmallVec<u32, 2>,
    /// Room for what nodes had.
    pub(crate) earlier: Vec<Earlier>,
}

/// The numbers of the items of nodes. A number that is given up is given again.
#[derive(Drop)]
pub(crate) struct Items {
    // the item that each number was given to last, from 0 on
    given: Vec<Item>,
    // the numbers that no item has, the next one last
    free: Vec<u32>,
    // the numbers of the items of each node in order, by its id
    lists: Vec<SmallVec<u32, 2>>,
}

impl Model for Items {
    ghost use Rattle.std.specs.Prelude.{◌≤◌, vec_len, vec_capacity};
    ghost use Rattle.box_tree.specs.Numbers.{KeptItems, items_state, number_room};
    ghost use Rattle.box_tree.specs.Sound.{AreSound};

    ghost Value = { KeptItems };

    ghost view = { λ s. record { items = items_state s.given.items s.free.items s.lists.items; room = number_room s.given s.free } };

    ghost invariant = { λ s. AreSound (items_state s.given.items s.free.items s.lists.items) × (vec_len s.given ≤ vec_capacity s.free) };
}

impl Items {
    /// No items.
    pub(crate) fn new(alloc: Global) -> Items
        ensures given { result.items.given ≡ [] }
        ensures lists { result.items.lists ≡ [] }
    {
        Items {
            given: Vec::new(alloc),
            free: Vec::new(alloc),
            lists: Vec::new(alloc),
        }
    }

    /// How many items there are.
    pub(crate) fn count(&self) -> usize
        ensures { result ≡ sum_by (λ list. length list) self.now.items.lists }
    {
        self.given.len() - self.free.len()
    }

    /// How many numbers were given so far, each below that.
    pub(crate) fn given_count(&self) -> usize
        ensures { result ≡ length self.now.items.given }
    {
        self.given.len()
    }

    /// The item of a number.
    pub(crate) fn item(&self, number: u32) -> Item
        requires { IsNumber self.now.items number }
        ensures { Names self.now.items number result }
    {
        self.given[number as usize]
    }

    /// The numbers of the items of a node in order.
    pub(crate) fn of(&self, id: u32) -> &[u32]
        ensures { result.now ≡ numbers_of self.now.items id }
    {
        match self.lists.get(id as usize) {
            Some(list) => list.as_slice(),
            None => &[],
        }
    }

    /// Makes room for so many numbers in the list of a node.
    pub(crate) fn reserve(&mut self, id: u32, count: usize) -> Result<(), AllocError>
        requires { count ≤ 327680 }
        ensures items { HasSameItems self.old.items self.new.items }
        ensures given { self.new.items.given ≡ self.old.items.given }
        ensures free { self.new.items.free ≡ self.old.items.free }
        ensures total { sum_by (λ list. length list) self.new.items.lists ≡ sum_by (λ list. length list) self.old.items.lists }
        ensures placed { OnOk result (id < length self.new.items.lists) }
        ensures room { OnOk result (length self.new.items.given + count ≤ self.new.room) }
    {
        let alloc = *self.given.allocator();
        self.given.reserve(count)?;
        let numbers = self.given.len() - self.free.len() + count;
        self.free.reserve(numbers)?;
        give_list(alloc, &mut self.lists, id)
    }

    /// Gives a node so many items: the first ones keep their numbers. It answers the list that the node had. The list that
    /// comes has room for all.
    pub(crate) fn resize(
        &mut self,
        id: u32,
        kind: Kind,
        count: usize,
        list: SmallVec<u32, 2>,
    ) -> SmallVec<u32, 2>
        requires placed { id < length self.old.items.lists }
        requires none { list.items ≡ [] }
        requires list_room { count ≤ list.capacity }
        requires room { length self.old.items.given + count ≤ self.old.room }
        requires most { sum_by (λ list. length list) self.old.items.lists + count ≤ 327680 + length (numbers_of self.old.items id) }
        ensures had { result.items ≡ numbers_of self.old.items id }
        ensures resized { IsResized id kind count self.old.items self.new.items }
    {
        let mut list = list;
        if count < self.of(id).len() {
            list.extend_from_slice(&self.of(id)[..count]).unwrap();
            self.fewer(id, list)
        } else {
            self.more(id, kind, count, list)
        }
    }

    // Gives a node numbers for more items.
    fn more(
        &mut self,
        id: u32,
        kind: Kind,
        count: usize,
        list: SmallVec<u32, 2>,
    ) -> SmallVec<u32, 2>
        requires placed { id < length self.old.items.lists }
        requires more { length (numbers_of self.old.items id) ≤ count }
        requires none { list.items ≡ [] }
        requires list_room { count ≤ list.capacity }
        requires room { length self.old.items.given + count ≤ self.old.room }
        requires most { sum_by (λ list. length list) self.old.items.lists + count ≤ 327680 + length (numbers_of self.old.items id) }
        ensures had { result.items ≡ numbers_of self.old.items id }
        ensures grown { IsGrown id kind count self.old.items self.new.items }
    {
        let mut list = list;
        list.extend_from_slice(self.of(id)).unwrap();
        fill(&mut self.given, &mut self.free, id, kind, count, &mut list);
        exchange(&mut self.lists, id, list)
    }

    /// Leaves a node the front of its numbers that comes, and answers the list that it had.
    pub(crate) fn fewer(&mut self, id: u32, list: SmallVec<u32, 2>) -> SmallVec<u32, 2>
        requires placed { id < length self.old.items.lists }
        requires fewer { length list.items ≤ length (numbers_of self.old.items id) }
        requires front { take (length list.items) (numbers_of self.old.items id) ≡ list.items }
        ensures numbers { self.new.items ≡ with_fewer id list.items self.old.items }
        ensures had { result.items ≡ numbers_of self.old.items id }
    {
        let kept = list.len();
        let had = exchange(&mut self.lists, id, list);
        release(&mut self.free, had.as_slice(), kept);
        had
    }

    /// Gives a node the list back that it had.
    fn back(&mut self, earlier: Earlier)
        requires { CanHaveAgain earlier self.old.items }
        ensures { self.new.items ≡ back_one earlier self.old.items }
    {
        let Earlier { id, list } = earlier;
        let count = self.of(id).len();
        if list.len() <= count {
            self.fewer(id, list);
            return;
        }
        let free = self.free.len() - (list.len() - count);
        self.free.truncate(free);
        exchange(&mut self.lists, id, list);
    }

    /// Gives nodes the lists back that they had, the last one first.
    pub(crate) fn back_all(&mut self, earlier: Vec<Earlier>)
        requires { CanGoBackBy earlier.items self.old.items }
        ensures { self.new.items ≡ back_by earlier.items self.old.items }
    {
        let mut earlier = earlier;
        while let Some(last) = earlier.pop() {
            self.back(last);
        }
    }

    /// Takes the numbers of these nodes, and keeps the lists where there is room for them.
    pub(crate) fn take_all(&mut self, alloc: Global, ids: &IdList, earlier: &mut Vec<Earlier>)
        requires none { earlier.old.items ≡ [] }
        requires room { vec_len earlier.old + length ids.now ≤ vec_capacity earlier.old }
        ensures taken { IsTakenFrom ids.now self.old.items self.new.items }
        ensures can_go_back { CanGoBackBy earlier.new.items self.new.items }
        ensures back { back_by earlier.new.items self.new.items ≡ self.old.items }
    {
        for id in ids.as_slice() {
            if self.of(*id).is_empty() {
                continue;
            }
            let list = self.fewer(*id, SmallVec::new(alloc));
            earlier.push_reserved(Earlier { id: *id, list });
        }
    }

    /// What holds of all numbers.
    pub(crate) fn soundness(&self)
        ensures { AreSound self.now.items }
    {
        let _ = &self.free;
    }
}

// Gives a node another list of numbers, and answers the one that it had.
fn exchange(lists: &mut Vec<SmallVec<u32, 2>>, id: u32, list: SmallVec<u32, 2>) -> SmallVec<u32, 2>
    requires { id < vec_len lists.old }
    ensures lists { map (λ list. list.items) lists.new.items ≡ slice_set (map (λ list. list.items) lists.old.items) id list.items }
    ensures had { result.items ≡ slice_index_or (map (λ list. list.items) lists.old.items) id [] }
{
    replace(&mut lists[id as usize], list)
}

// Numbers of a list from a place on are free. There is room for them.
fn release(free: &mut Vec<u32>, list: &[u32], kept: usize)
    requires kept { kept ≤ length list.now }
    requires room { vec_len free.old + length list.now ≤ kept + vec_capacity free.old }
    ensures items { free.new.items ≡ free.old.items ++ drop kept list.now }
    ensures len { vec_len free.new + kept ≡ vec_len free.old + length list.now }
    ensures capacity { vec_capacity free.old ≤ vec_capacity free.new }
{
    free.extend_from_slice(&list[kept..]).unwrap();
}

// Numbers for more items of a node, at the end of its list.
fn fill(
    given: &mut Vec<Item>,
    free: &mut Vec<u32>,
    id: u32,
    kind: Kind,
    count: usize,
    list: &mut SmallVec<u32, 2>,
)
    requires fits { length list.old.items ≤ count }
    requires few { count ≤ 655360 }
    requires list_room { count ≤ list.old.capacity }
    requires room { vec_len given.old + count ≤ length list.old.items + vec_capacity given.old }
    requires most { vec_len given.old + count ≤ length list.old.items + 655360 }
    requires once { (k : ℕ) → times_in k list.old.items + times_in k free.old.items ≤ once_below k given.old.items }
    ensures filled { IsFilled id kind list.old.items given.old.items free.old.items list.new.items given.new.items free.new.items }
    ensures count { length list.new.items ≡ count }
    ensures given_room { vec_capacity given.new ≡ vec_capacity given.old }
    ensures free_room { vec_capacity free.new ≡ vec_capacity free.old }
{
    for place in list.len()..count {
        let number = give(given, free, item_at(id, kind, place));
        list.push_reserved(number);
    }
}

// Gives a number to an item: the free one that is next, or a new one.
fn give(given: &mut Vec<Item>, free: &mut Vec<u32>, item: Item) -> u32
    requires room { vec_len given.old < vec_capacity given.old }
    requires most { vec_len given.old < 655360 }
    requires within { (k : ℕ) → 0 < times_in k free.old.items → k < vec_len given.old }
    ensures gives { Gives item given.old.items free.old.items given.new.items free.new.items result }
    ensures given_room { vec_capacity given.new ≡ vec_capacity given.old }
    ensures free_room { vec_capacity free.new ≡ vec_capacity free.old }
{
    if let Some(number) = free.pop() {
        given[number as usize] = item;
        return number;
    }
    let number = given.len() as u32;
    given.push_reserved(item);
    number
}

// The item at a place among those of a node.
fn item_at(id: u32, kind: Kind, place: usize) -> Item
    requires { place < 2 ^ 32 }
    ensures { result ≡ item_at id kind place }
{
    let part = match kind {
        Kind::Image if place > 0 => Part::Content,
        Kind::Shape => Part::Outline,
        _ => Part::Box {
            place: place as u32,
        },
    };
    Item { node: id, part }
}

// Makes the lists reach an id. Those of all ids stay.
fn give_list(alloc: Global, lists: &mut Vec<SmallVec<u32, 2>>, id: u32) -> Result<(), AllocError>
    ensures lists { (x : ℕ) → slice_index_or (map (λ list. list.items) lists.new.items) x [] ≡ slice_index_or (map (λ list. list.items) lists.old.items) x [] }
    ensures placed { OnOk result (id < vec_len lists.new) }
    ensures sums { (f : List ℕ → ℕ) → f [] ≡ 0 → sum_by f (map (λ list. list.items) lists.new.items) ≡ sum_by f (map (λ list. list.items) lists.old.items) }
{
    for _ in lists.len()..id as usize + 1 {
        lists.push(SmallVec::new(alloc))?;
    }
    Ok(())
}
