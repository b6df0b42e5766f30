// The items whose bounds an edit changes.
ghost use Rattle.std.specs.Prelude.{◌≡◌, ◌++◌, ℕ, map, IsTrue, IfOk, OnOk};
ghost use Rattle.box_tree.specs.Numbers.{numbers_of};
ghost use Rattle.box_tree.specs.Planned.{is_among};
ghost use Rattle.spaces.specs.Table.{new_entry, renewed_entry, entry_of};
ghost use Rattle.tree_edits.specs.Cells.{rect_under};
ghost use Rattle.tree_edits.specs.Changes.{numbers_in, moved, taken, changes_of, behind};

use crate::bounds::{NOWHERE, renewed_bounds};
use crate::memory::OutOfMemory;
use crate::reach::subtree_ids;
use box_tree::Page;
use fractions::{Ledger, Rect, Steps};
use spaces::SpaceChange;
use spatial_index::Change;
use std::alloc::Global;

/// The changes of the items of a subtree, or of the whole page for id 0, and of those that are gone, where the bounds are those
/// before: each item by its number, in tree order.
pub(crate) fn make_changes<L: Ledger>(
    alloc: Global,
    page: &Page,
    change: &SpaceChange,
    subtree: u32,
    gone: &[u32],
    bounds: &[Rect],
    steps: &mut Steps<L>,
) -> Result<Vec<Change>, OutOfMemory>
    requires { (id : ℕ) → new_entry change.now id ≡ renewed_entry page.now.contents subtree id }
    ensures { IfOk result (λ changes. changes.items ≡ changes_of bounds.now page.now.contents page.now.items subtree gone.now) }
{
    page.validity();
    let ids = subtree_ids(alloc, page, subtree, steps)?;
    let mut changes = Vec::new(alloc);
    push_all_moved(page, change, ids.as_slice(), bounds, &mut changes, steps)?;
    push_taken(gone, bounds, &mut changes)?;
    Ok(changes)
}

/// Those of the numbers before an edit that no item has after it: the ones behind those that the edited node still has.
pub(crate) fn gone_numbers<'a, L: Ledger>(
    page: &Page,
    node: u32,
    before: &'a [u32],
    steps: &mut Steps<L>,
) -> &'a [u32]
    ensures { result.now ≡ behind page.now.items node before.now }
{
    let kept = page.items_of(node, steps).len();
    if kept < before.len() {
        &before[kept..]
    } else {
        &before[before.len()..]
    }
}

// Appends the changes of the items of some nodes.
fn push_all_moved<L: Ledger>(
    page: &Page,
    change: &SpaceChange,
    ids: &[u32],
    bounds: &[Rect],
    changes: &mut Vec<Change>,
    steps: &mut Steps<L>,
) -> Result<(), OutOfMemory>
    requires { (id : ℕ) → IsTrue (is_among ids.now id) → new_entry change.now id ≡ entry_of page.now.contents id }
    ensures { OnOk result (changes.new.items ≡ changes.old.items ++ map (moved bounds.now page.now.contents page.now.items) (numbers_in page.now.items ids.now)) }
{
    for id in ids {
        push_moved(page, change, *id, bounds, changes, steps)?;
    }
    Ok(())
}

// Appends the changes of the items of a node.
fn push_moved<L: Ledger>(
    page: &Page,
    change: &SpaceChange,
    id: u32,
    bounds: &[Rect],
    changes: &mut Vec<Change>,
    steps: &mut Steps<L>,
) -> Result<(), OutOfMemory>
    requires { new_entry change.now id ≡ entry_of page.now.contents id }
    ensures { OnOk result (changes.new.items ≡ changes.old.items ++ map (moved bounds.now page.now.contents page.now.items) (numbers_of page.now.items id)) }
{
    page.validity();
    page.numbering();
    for number in page.items_of(id, steps) {
        let item = page.item(*number, steps);
        changes.push(Change {
            item: *number,
            old: rect_under(bounds, *number),
            new: renewed_bounds(page, change, item, steps),
        })?;
    }
    Ok(())
}

// Appends the changes of the items that are gone.
fn push_taken(gone: &[u32], bounds: &[Rect], changes: &mut Vec<Change>) -> Result<(), OutOfMemory>
    ensures { OnOk result (changes.new.items ≡ changes.old.items ++ map (taken bounds.now) gone.now) }
{
    for number in gone {
        changes.push(Change {
            item: *number,
            old: rect_under(bounds, *number),
            new: NOWHERE,
        })?;
    }
    Ok(())
}

// The bounds under a number, and four zeros beyond the last.
fn rect_under(bounds: &[Rect], number: u32) -> Rect
    ensures { result ≡ rect_under bounds.now number }
{
    match bounds.get(number as usize) {
        Some(rect) => *rect,
        None => NOWHERE,
    }
}
