// What an edit reaches: the subtree whose spaces it changes, the ids that it takes out, the stacking contexts whose lists it can
// change, and the nodes that it can take items from.
ghost use Rattle.std.specs.Prelude.{◌≡◌, ◌++◌, ◌≤◌, ℕ, None, IsTrue, IsFalse, IfOk, OnOk};
ghost use Rattle.std.specs.Option.{option_map_or};
ghost use Rattle.box_tree.specs.Containing.{makes_context};
ghost use Rattle.box_tree.specs.Contents.{tree_of, IsValid};
ghost use Rattle.box_tree.specs.Edited.{first_fault, edited};
ghost use Rattle.box_tree.specs.Forest.{ids_in, roots_of, End};
ghost use Rattle.box_tree.specs.Planned.{is_among, times_in};
ghost use Rattle.spaces.specs.Table.{removed_ids, renewed_node, subtree_of};
ghost use Rattle.stacking.specs.Frame.{KeepsList};
ghost use Rattle.tree_edits.specs.Changes.{gives_sides, numbers_before, numbers_in};
ghost use Rattle.tree_edits.specs.Faithful.{is_bare};

use crate::memory::OutOfMemory;
use box_tree::{Edit, Page};
use fractions::{Ledger, Steps};
use stacking::touched;
use std::alloc::{AllocError, Global};

// The node that an edit of the page changes, whose subtree is renewed then: the next id for an add, and 0, for the whole
// page, where it changes the viewport.
fn renewed_node(page: &Page, edit: &Edit) -> u32
    ensures { result ≡ renewed_node page.now.contents edit.now }
{
    match edit {
        Edit::Add { .. } => page.next_id(),
        Edit::Remove { id } => *id,
        Edit::Move { id, .. } => *id,
        Edit::Place { id, .. } => *id,
        Edit::Restyle { id, .. } => *id,
        Edit::Reshape { id, .. } => *id,
        Edit::Scroll { id, .. } => *id,
        Edit::Resize { .. } | Edit::ScrollView { .. } => 0,
    }
}

/// What an edit without a fault reaches, by the page before it.
#[derive(Drop)]
pub(crate) struct Reach {
    /// The node whose subtree it changes, and 0 for the whole page.
    pub subtree: u32,
    /// The ids that it takes out.
    pub removed: Vec<u32>,
    /// The ids of the stacking contexts whose lists it can change, each once.
    pub touched: Vec<u32>,
    /// The numbers of the items of the nodes that it can take items from.
    pub numbers: Vec<u32>,
    /// The page has no tree yet.
    pub was_bare: bool,
    /// The viewport gets other sides.
    pub resizes: bool,
}

/// What an edit without a fault reaches. It takes one step for each id that it takes out, and for each node that it can take
/// items from.
pub(crate) fn reach_of<L: Ledger>(
    alloc: Global,
    page: &Page,
    edit: &Edit,
    steps: &mut Steps<L>,
) -> Result<Reach, OutOfMemory>
    requires { first_fault page.now.contents edit.now ≡ None }
    ensures subtree { IfOk result (λ reach. reach.subtree ≡ renewed_node page.now.contents edit.now) }
    ensures removed { IfOk result (λ reach. reach.removed.items ≡ removed_ids page.now.contents edit.now) }
    ensures contexts { IfOk result (λ reach. (id : ℕ) → IsTrue (is_among reach.touched.items id) → IsTrue (makes_context page.now.contents id)) }
    ensures once { IfOk result (λ reach. (id : ℕ) → times_in id reach.touched.items ≤ 1) }
    ensures all { IfOk result (λ reach. (id : ℕ) → IsTrue (makes_context page.now.contents id) → IsFalse (is_among reach.touched.items id) → KeepsList page.now.contents (edited page.now.contents edit.now) id) }
    ensures numbers { IfOk result (λ reach. reach.numbers.items ≡ numbers_before page.now.contents page.now.items edit.now) }
    ensures bare { IfOk result (λ reach. reach.was_bare ≡ is_bare (roots_of page.now.contents.tree)) }
    ensures resizes { IfOk result (λ reach. reach.resizes ≡ gives_sides edit.now) }
{
    page.validity();
    let removed = removed_ids(alloc, page, edit, steps)?;
    let touched = touched(alloc, page, edit)?;
    let numbers = numbers_before(alloc, page, edit, removed.as_slice(), steps)?;
    Ok(Reach {
        subtree: renewed_node(page, edit),
        removed,
        touched,
        numbers,
        was_bare: page.root().is_none(),
        resizes: gives_sides(edit),
    })
}

// Whether an edit gives the viewport other sides.
fn gives_sides(edit: &Edit) -> bool
    ensures { result ≡ gives_sides edit.now }
{
    match edit {
        Edit::Resize { .. } => true,
        Edit::Add { .. }
        | Edit::Remove { .. }
        | Edit::Move { .. }
        | Edit::Place { .. }
        | Edit::Restyle { .. }
        | Edit::Reshape { .. }
        | Edit::Scroll { .. }
        | Edit::ScrollView { .. } => false,
    }
}

// The numbers of the items of the nodes that an edit of the page can take items from, where the ids that go are known.
fn numbers_before<L: Ledger>(
    alloc: Global,
    page: &Page,
    edit: &Edit,
    removed: &[u32],
    steps: &mut Steps<L>,
) -> Result<Vec<u32>, OutOfMemory>
    requires { removed.now ≡ removed_ids page.now.contents edit.now }
    ensures { IfOk result (λ numbers. numbers.items ≡ numbers_before page.now.contents page.now.items edit.now) }
{
    let mut numbers = Vec::new(alloc);
    push_numbers(page, removed, &mut numbers, steps)?;
    if let Edit::Place { id, .. } = edit {
        numbers.extend_from_slice(page.items_of(*id, steps))?;
    }
    Ok(numbers)
}

// Appends the numbers of the items of some nodes.
fn push_numbers<L: Ledger>(
    page: &Page,
    ids: &[u32],
    numbers: &mut Vec<u32>,
    steps: &mut Steps<L>,
) -> Result<(), OutOfMemory>
    ensures { OnOk result (numbers.new.items ≡ numbers.old.items ++ numbers_in page.now.items ids.now) }
{
    for id in ids {
        numbers.extend_from_slice(page.items_of(*id, steps))?;
    }
    Ok(())
}

// The ids that an edit takes out of the page, in tree order. It takes one step for each.
fn removed_ids<L: Ledger>(
    alloc: Global,
    page: &Page,
    edit: &Edit,
    steps: &mut Steps<L>,
) -> Result<Vec<u32>, AllocError>
    requires { IsValid page.now.contents }
    ensures { IfOk result (λ ids. ids.items ≡ removed_ids page.now.contents edit.now) }
{
    let mut ids = Vec::new(alloc);
    if let Edit::Remove { id } = edit {
        push_ids(page, *id, &mut ids, steps)?;
    }
    Ok(ids)
}

// Appends the ids of a node and of all below it, in tree order.
fn push_ids<L: Ledger>(
    page: &Page,
    id: u32,
    ids: &mut Vec<u32>,
    steps: &mut Steps<L>,
) -> Result<(), AllocError>
    requires { IsValid page.now.contents }
    ensures { OnOk result (ids.new.items ≡ ids.old.items ++ ids_in (tree_of page.now.contents id)) }
{
    if !page.has(id) {
        return Ok(());
    }
    let node = page.node(id, steps);
    ids.push(id)?;
    for child in node.children.as_slice() {
        push_ids(page, *child, ids, steps)?;
    }
    Ok(())
}

/// The ids of a node of the page and of all below it, in tree order, or those of the whole page where the id is 0. It takes one
/// step for each.
pub(crate) fn subtree_ids<L: Ledger>(
    alloc: Global,
    page: &Page,
    subtree: u32,
    steps: &mut Steps<L>,
) -> Result<Vec<u32>, AllocError>
    requires { IsValid page.now.contents }
    ensures { IfOk result (λ ids. ids.items ≡ ids_in (subtree_of page.now.contents subtree)) }
{
    let mut ids = Vec::new(alloc);
    if let Some(top) = top_of(page, subtree) {
        push_ids(page, top, &mut ids, steps)?;
    }
    Ok(ids)
}

// The node whose subtree is meant: the root where the id is 0.
fn top_of(page: &Page, subtree: u32) -> Option<u32>
    requires { IsValid page.now.contents }
    ensures { subtree_of page.now.contents subtree ≡ option_map_or (λ top. tree_of page.now.contents top) result End }
{
    if subtree == 0 {
        page.root()
    } else {
        Some(subtree)
    }
}
