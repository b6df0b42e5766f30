// The lists of a forest that follows the edits of a page: those that an edit can change are made anew.
ghost use Rattle.std.specs.Prelude.{◌≡◌, ◌≢◌, ◌<◌, ◌≤◌, ◌==◌, ◌&&◌, ℕ, [], None, Some, IsTrue, IsFalse, IsSome, IfOk, OnOk, not, true, if◌then◌else◌};
ghost use Rattle.std.specs.List.{AllByRecursion};
ghost use Rattle.box_tree.specs.Containing.{makes_context};
ghost use Rattle.box_tree.specs.Contents.{has_id};
ghost use Rattle.box_tree.specs.Forest.{roots_of};
ghost use Rattle.box_tree.specs.Planned.{is_among, times_in};
ghost use Rattle.paint_order.specs.Lists.{list_under};
ghost use Rattle.paint_order.specs.State.{list_room};
ghost use Rattle.stacking.specs.Frame.{is_next_to};
ghost use Rattle.stacking.specs.Lists.{kept_list, HasOnlyListsOf};
ghost use Rattle.tree_edits.specs.Exchange.{IsListOf, HasRoomFor, MayExchange, contexts_of};
ghost use Rattle.tree_edits.specs.Faithful.{root_number, is_bare, IsForestOf};

use crate::memory::OutOfMemory;
use box_tree::Page;
use fractions::{Ledger, Steps};
use paint_order::{Entry, Forest};
use stacking::laws::lists_may_be_put;
use stacking::{lists_of, renewed};
use std::alloc::Global;
use std::marker::Model;

/// A new list, and the stacking context that it is for.
#[derive(Drop)]
pub(crate) struct FreshList {
    context: u32,
    entries: Vec<Entry>,
}

impl Model for FreshList {
    ghost use Rattle.tree_edits.specs.Exchange.{ContextList};

    ghost Value = { ContextList };

    ghost view = { λ list. record { context = list.context; entries = list.entries.items } };
}

/// The new lists after an edit of a node: those of the touched stacking contexts that stand, and of those next to the node. The
/// forest has room for them, and its lists stay, whatever the answer.
pub(crate) fn ready_lists(
    alloc: Global,
    page: &Page,
    forest: &mut Forest,
    node: u32,
    touched: &[u32],
) -> Result<Vec<FreshList>, OutOfMemory>
    ensures same { (id : ℕ) → list_under forest.new.lists id ≡ list_under forest.old.lists id }
    ensures root { forest.new.root ≡ forest.old.root }
    ensures room { OnOk result (HasRoomFor forest.new page.now.contents page.now.items) }
    ensures lists { IfOk result (λ lists. AllByRecursion (IsListOf page.now.contents page.now.items) lists.items) }
    ensures touched { IfOk result (λ lists. (id : ℕ) → IsTrue (is_among touched.now id) → IsTrue (makes_context page.now.contents id) → IsTrue (is_among (contexts_of lists.items) id)) }
    ensures next { IfOk result (λ lists. (id : ℕ) → IsTrue (has_id page.now.contents node) → IsTrue (makes_context page.now.contents id) → IsTrue (is_next_to page.now.contents node id) → IsTrue (is_among (contexts_of lists.items) id)) }
{
    let ids = renewed(alloc, page, node, touched)?;
    let lists = make_lists(alloc, page, ids.as_slice())?;
    forest.reserve(page.number_limit(), page.next_id())?;
    Ok(lists)
}

// The lists of some real stacking contexts of the page.
fn make_lists(alloc: Global, page: &Page, ids: &[u32]) -> Result<Vec<FreshList>, OutOfMemory>
    requires { (id : ℕ) → IsTrue (is_among ids.now id) → IsTrue (makes_context page.now.contents id) }
    ensures contexts { IfOk result (λ lists. contexts_of lists.items ≡ ids.now) }
    ensures lists { IfOk result (λ lists. AllByRecursion (IsListOf page.now.contents page.now.items) lists.items) }
{
    let mut lists = Vec::new(alloc);
    for id in ids {
        let entries = lists_of(alloc, page, *id)?;
        lists.push(FreshList {
            context: *id,
            entries,
        })?;
    }
    Ok(lists)
}

/// Puts the new lists in the place of those of the touched contexts, so that the forest has the lists of the page.
pub(crate) fn exchange_lists<L: Ledger>(
    alloc: Global,
    forest: &mut Forest,
    page: &Page,
    touched: &[u32],
    fresh: Vec<FreshList>,
    was_bare: bool,
    steps: &mut Steps<L>,
)
    requires { MayExchange forest.old page.now.contents page.now.items touched.now fresh.items was_bare }
    ensures { IsForestOf forest.new page.now.contents page.now.items }
{
    page.validity();
    clear_lists(alloc, forest, touched, steps);
    put_lists(forest, page, fresh, steps);
    put_root(alloc, forest, page, was_bare, steps);
    drop_lists(forest, page, touched, steps);
}

// Makes lists that stand empty.
fn clear_lists<L: Ledger>(alloc: Global, forest: &mut Forest, ids: &[u32], steps: &mut Steps<L>)
    requires { (id : ℕ) → IsTrue (is_among ids.now id) → IsSome (list_under forest.old.lists id) }
    ensures lists { (id : ℕ) → list_under forest.new.lists id ≡ (if is_among ids.now id then Some [] else list_under forest.old.lists id) }
    ensures root { forest.new.root ≡ forest.old.root }
    ensures item_room { forest.new.item_room ≡ forest.old.item_room }
    ensures list_room { list_room forest.new ≡ list_room forest.old }
{
    for id in ids {
        forest.put_list(*id, Vec::new(alloc), steps);
    }
}

// Puts lists of the page, where the forest has none but some of these.
fn put_lists<L: Ledger>(
    forest: &mut Forest,
    page: &Page,
    fresh: Vec<FreshList>,
    steps: &mut Steps<L>,
)
    requires room { HasRoomFor forest.old page.now.contents page.now.items }
    requires lists { AllByRecursion (IsListOf page.now.contents page.now.items) fresh.items }
    requires only { HasOnlyListsOf forest.old.lists page.now.contents page.now.items }
    ensures lists { (id : ℕ) → list_under forest.new.lists id ≡ (if is_among (contexts_of fresh.items) id then Some (kept_list page.now.items page.now.contents id) else list_under forest.old.lists id) }
    ensures root { forest.new.root ≡ forest.old.root }
    ensures list_room { list_room forest.new ≡ list_room forest.old }
{
    lists_may_be_put();
    page.validity();
    page.numbering();
    for list in fresh {
        forest.put_list(list.context, list.entries, steps);
    }
}

// Makes the list of the root the root list, or an empty list 0 for a page without a tree, which stands for none but such a
// page.
fn put_root<L: Ledger>(
    alloc: Global,
    forest: &mut Forest,
    page: &Page,
    was_bare: bool,
    steps: &mut Steps<L>,
)
    requires room { 0 < list_room forest.old }
    requires bare { was_bare ≡ true → IsSome (list_under forest.old.lists 0) }
    requires positive { IsFalse (is_bare (roots_of page.now.contents.tree)) → 0 < root_number (roots_of page.now.contents.tree) }
    requires root { IsFalse (is_bare (roots_of page.now.contents.tree)) → IsSome (list_under forest.old.lists (root_number (roots_of page.now.contents.tree))) }
    ensures root { forest.new.root ≡ root_number (roots_of page.now.contents.tree) }
    ensures first { list_under forest.new.lists 0 ≡ (if is_bare (roots_of page.now.contents.tree) then Some [] else (if was_bare then None else list_under forest.old.lists 0)) }
    ensures others { (id : ℕ) → 0 < id → list_under forest.new.lists id ≡ list_under forest.old.lists id }
{
    match page.root() {
        Some(root) => {
            forest.set_root(root);
            if was_bare {
                forest.drop_list(0, steps);
            }
        }
        None => {
            forest.put_list(0, Vec::new(alloc), steps);
            forest.set_root(0);
        }
    }
}

// Drops those of some lists that are of no stacking context of the page.
fn drop_lists<L: Ledger>(forest: &mut Forest, page: &Page, ids: &[u32], steps: &mut Steps<L>)
    requires once { (id : ℕ) → times_in id ids.now ≤ 1 }
    requires stand { (id : ℕ) → IsTrue (is_among ids.now id) → IsSome (list_under forest.old.lists id) }
    requires root { (id : ℕ) → IsTrue (is_among ids.now id) → IsFalse (makes_context page.now.contents id) → id ≢ forest.old.root }
    ensures lists { (id : ℕ) → list_under forest.new.lists id ≡ (if is_among ids.now id && not (makes_context page.now.contents id) then None else list_under forest.old.lists id) }
    ensures root { forest.new.root ≡ forest.old.root }
{
    for id in ids {
        drop_unless_context(forest, page, *id, steps);
    }
}

// Drops a list, unless it is of a stacking context of the page.
fn drop_unless_context<L: Ledger>(forest: &mut Forest, page: &Page, id: u32, steps: &mut Steps<L>)
    requires stands { IsSome (list_under forest.old.lists id) }
    requires root { IsFalse (makes_context page.now.contents id) → id ≢ forest.old.root }
    ensures lists { (n : ℕ) → list_under forest.new.lists n ≡ (if id == n then (if makes_context page.now.contents id then list_under forest.old.lists n else None) else list_under forest.old.lists n) }
    ensures root { forest.new.root ≡ forest.old.root }
{
    if !is_context(page, id) {
        forest.drop_list(id, steps);
    }
}

// Whether an id is that of a real stacking context of the page.
fn is_context(page: &Page, id: u32) -> bool
    ensures { result ≡ makes_context page.now.contents id }
{
    page.has(id) && page.makes_context(id)
}
