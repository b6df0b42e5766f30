ghost use Rattle.std.specs.Prelude.{◌≡◌, ◌++◌, ◌∷◌, ◌≤◌, ◌⊎◌, [], ℕ, None, IsTrue, IsFalse, IfOk};
ghost use Rattle.box_tree.specs.Contents.{IsValid, has_id, tree_of, below_of};
ghost use Rattle.box_tree.specs.Containing.{makes_context};
ghost use Rattle.box_tree.specs.Edited.{first_fault, edited};
ghost use Rattle.box_tree.specs.Forest.{roots_of, ids_in};
ghost use Rattle.box_tree.specs.Planned.{is_among, times_in};
ghost use Rattle.stacking.specs.Frame.{KeepsList, can_change, is_next_to};
ghost use Rattle.stacking.specs.Touched.{contexts_among, context_around, near, near_there, new_context, candidates};
ghost use Rattle.stacking.specs.Contexts.{context_of};

use crate::context::context_of;
use crate::memory::OutOfMemory;
use crate::once::each_once;
use crate::reading::read;
use box_tree::{Edit, Page};
use std::alloc::Global;

/// The stacking contexts of the page as it stands whose lists an edit without a fault can change, each once. Those are the
/// next one above the node that the edit changes, before and after it, that node itself and its children, and all in it
/// where it is removed. It takes memory for the answer.
pub fn touched(alloc: Global, page: &Page, edit: &Edit) -> Result<Vec<u32>, OutOfMemory>
    requires { first_fault page.now.contents edit.now ≡ None }
    ensures contexts { IfOk result (λ ids. (id : ℕ) → IsTrue (is_among ids.items id) → IsTrue (makes_context page.now.contents id)) }
    ensures once { IfOk result (λ ids. (id : ℕ) → times_in id ids.items ≤ 1) }
    ensures all { IfOk result (λ ids. (id : ℕ) → IsTrue (makes_context page.now.contents id) → IsFalse (is_among ids.items id) → KeepsList page.now.contents (edited page.now.contents edit.now) id) }
    ensures only { IfOk result (λ ids. (id : ℕ) → IsTrue (is_among ids.items id) → IsTrue (has_id (edited page.now.contents edit.now) id) → IsTrue (can_change page.now.contents edit.now id)) }
{
    page.validity();
    contexts_for(alloc, page, edit)
}

/// The stacking contexts of the page as it stands that are among the touched ones or next to a node, each once: with those
/// that an edit touched and the node that it changed, those whose lists are to be made anew after it. A node that isn't
/// there has none next to it. It takes memory for the answer and the walk.
pub fn renewed(
    alloc: Global,
    page: &Page,
    node: u32,
    touched: &[u32],
) -> Result<Vec<u32>, OutOfMemory>
    ensures contexts { IfOk result (λ ids. (id : ℕ) → IsTrue (is_among ids.items id) → IsTrue (makes_context page.now.contents id)) }
    ensures once { IfOk result (λ ids. (id : ℕ) → times_in id ids.items ≤ 1) }
    ensures all_touched { IfOk result (λ ids. (id : ℕ) → IsTrue (is_among touched.now id) → IsTrue (makes_context page.now.contents id) → IsTrue (is_among ids.items id)) }
    ensures all_next { IfOk result (λ ids. (id : ℕ) → IsTrue (has_id page.now.contents node) → IsTrue (makes_context page.now.contents id) → IsTrue (is_next_to page.now.contents node id) → IsTrue (is_among ids.items id)) }
    ensures only { IfOk result (λ ids. (id : ℕ) → IsTrue (is_among ids.items id) → IsTrue (is_among touched.now id) ⊎ (IsTrue (has_id page.now.contents node) × IsTrue (is_next_to page.now.contents node id))) }
{
    page.validity();
    let ids = contexts_now(alloc, page, node, touched)?;
    each_once(alloc, &ids)
}

// The stacking contexts near a node and among the touched ones.
fn contexts_now(
    alloc: Global,
    page: &Page,
    node: u32,
    touched: &[u32],
) -> Result<Vec<u32>, OutOfMemory>
    requires { IsValid page.now.contents }
    ensures { IfOk result (λ ids. ids.items ≡ contexts_among page.now.contents (near_there page.now.contents node ++ touched.now)) }
{
    let mut ids = Vec::new(alloc);
    push_near_there(page, node, &mut ids)?;
    push_contexts(page, touched, &mut ids)?;
    Ok(ids)
}

// Appends the stacking contexts near a node where it is there.
fn push_near_there(page: &Page, node: u32, ids: &mut Vec<u32>) -> Result<(), OutOfMemory>
    requires { IsValid page.now.contents }
    ensures { IfOk result (λ _. ids.new.items ≡ ids.old.items ++ contexts_among page.now.contents (near_there page.now.contents node)) }
{
    if page.has(node) {
        return push_near(page, node, ids);
    }
    Ok(())
}

// The stacking contexts among the nodes that matter to an edit.
fn contexts_for(alloc: Global, page: &Page, edit: &Edit) -> Result<Vec<u32>, OutOfMemory>
    requires valid { IsValid page.now.contents }
    requires faultless { first_fault page.now.contents edit.now ≡ None }
    ensures { IfOk result (λ ids. ids.items ≡ contexts_among page.now.contents (candidates page.now.contents edit.now)) }
{
    let mut ids = Vec::new(alloc);
    match edit {
        Edit::Add { parent, .. } => push_context(page, context_around(page, *parent), &mut ids)?,
        Edit::Remove { id } => push_removed(page, *id, &mut ids)?,
        Edit::Move { id, parent, .. } => push_moved(page, *id, *parent, &mut ids)?,
        Edit::Place { id, .. }
        | Edit::Restyle { id, .. }
        | Edit::Reshape { id, .. }
        | Edit::Scroll { id, .. } => push_near(page, *id, &mut ids)?,
        Edit::Resize { .. } | Edit::ScrollView { .. } => {}
    }
    Ok(ids)
}

// The nearest stacking context above a child of a node: the node itself, or the nearest above it; 0 for no node.
fn context_around(page: &Page, parent: u32) -> u32
    requires { IsValid page.now.contents }
    ensures { result ≡ context_around page.now.contents parent }
{
    if !page.has(parent) {
        0
    } else if page.makes_context(parent) {
        parent
    } else {
        context_of(page, parent)
    }
}

// Appends the stacking context above a node, and those in its tree.
fn push_removed(page: &Page, id: u32, ids: &mut Vec<u32>) -> Result<(), OutOfMemory>
    requires valid { IsValid page.now.contents }
    requires there { IsTrue (has_id page.now.contents id) }
    ensures { IfOk result (λ _. ids.new.items ≡ ids.old.items ++ contexts_among page.now.contents (context_of page.now.contents id ∷ ids_in (tree_of page.now.contents id))) }
{
    push_context(page, context_of(page, id), ids)?;
    push_tree(page, id, ids)
}

// Appends the stacking contexts near a node, and the one above its new place.
fn push_moved(page: &Page, id: u32, parent: u32, ids: &mut Vec<u32>) -> Result<(), OutOfMemory>
    requires valid { IsValid page.now.contents }
    requires there { IsTrue (has_id page.now.contents id) }
    ensures { IfOk result (λ _. ids.new.items ≡ ids.old.items ++ contexts_among page.now.contents (near page.now.contents id ++ new_context page.now.contents id parent)) }
{
    push_near(page, id, ids)?;
    let around = context_around(page, parent);
    if around == context_of(page, id) {
        return Ok(());
    }
    push_context(page, around, ids)
}

// Appends the stacking contexts among the context above a node, the node and its children.
fn push_near(page: &Page, id: u32, ids: &mut Vec<u32>) -> Result<(), OutOfMemory>
    requires valid { IsValid page.now.contents }
    requires there { IsTrue (has_id page.now.contents id) }
    ensures { IfOk result (λ _. ids.new.items ≡ ids.old.items ++ contexts_among page.now.contents (near page.now.contents id)) }
{
    push_context(page, context_of(page, id), ids)?;
    push_context(page, id, ids)?;
    push_contexts(page, read(page, id).children.as_slice(), ids)
}

// Appends the stacking contexts in the tree of a node.
fn push_tree(page: &Page, id: u32, ids: &mut Vec<u32>) -> Result<(), OutOfMemory>
    requires valid { IsValid page.now.contents }
    requires there { IsTrue (has_id page.now.contents id) }
    ensures { IfOk result (λ _. ids.new.items ≡ ids.old.items ++ contexts_among page.now.contents (ids_in (tree_of page.now.contents id))) }
{
    push_context(page, id, ids)?;
    for child in read(page, id).children.as_slice() {
        push_tree(page, *child, ids)?;
    }
    Ok(())
}

// Appends a node where it is a stacking context.
fn push_context(page: &Page, id: u32, ids: &mut Vec<u32>) -> Result<(), OutOfMemory>
    ensures { IfOk result (λ _. ids.new.items ≡ ids.old.items ++ contexts_among page.now.contents (id ∷ [])) }
{
    if page.has(id) && page.makes_context(id) {
        ids.push(id)?;
    }
    Ok(())
}

// Appends those of some nodes that are stacking contexts.
fn push_contexts(page: &Page, nodes: &[u32], ids: &mut Vec<u32>) -> Result<(), OutOfMemory>
    ensures { IfOk result (λ _. ids.new.items ≡ ids.old.items ++ contexts_among page.now.contents nodes.now) }
{
    for node in nodes {
        push_context(page, *node, ids)?;
    }
    Ok(())
}
