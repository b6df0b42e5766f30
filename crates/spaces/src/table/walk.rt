// The walk over a subtree.
ghost use Rattle.std.specs.Prelude.{◌≡◌, ◌≢◌, ◌+◌, ◌≤◌, ℕ, length, IsTrue, IsFalse, IfErr, OnOk, ◌<◌};
ghost use Rattle.box_tree.specs.Forest.{node_count};
ghost use Rattle.box_tree.specs.Contents.{has_id, ancestors_of, tree_of, IsValid};
ghost use Rattle.spaces.specs.Around.{written_from, IsAround};
ghost use Rattle.spaces.specs.Table.{new_entry, is_bounded_from};

use crate::table::around::Around;
use crate::table::change::SpaceChange;
use crate::table::fault::BoundOrMemory;
use box_tree::Page;
use fractions::{Ledger, Steps};

/// Puts the entries of a node and of all below it into a change, from what the ancestors of the node hand down. Bound
/// exactly where a partial product of one of these nodes passes the bound.
pub(crate) fn renew_from<L: Ledger>(
    page: &Page,
    id: u32,
    around: &Around,
    change: &mut SpaceChange,
    steps: &mut Steps<L>,
) -> Result<(), BoundOrMemory>
    requires valid { IsValid page.now.contents }
    requires there { IsTrue (has_id page.now.contents id) }
    requires around { IsAround page.now.contents.viewport (ancestors_of page.now.contents id) around.now }
    ensures entries { OnOk result ((x : ℕ) → new_entry change.new x ≡ written_from page.now.contents id x (new_entry change.old x)) }
    ensures count { OnOk result (length change.new ≤ length change.old + node_count (tree_of page.now.contents id)) }
    ensures bounded { OnOk result (IsTrue (is_bounded_from page.now.contents id)) }
    ensures beyond { IfErr result (λ why. why ≡ BoundOrMemory.Bound → IsFalse (is_bounded_from page.now.contents id)) }
{
    let entry = around.entry(page, id, steps)?;
    let space = entry.space;
    let node = page.node(id, steps);
    change.put(id, node.kind, entry)?;
    if node.children.as_slice().is_empty() {
        return Ok(());
    }
    let inside = around.inside(page, id, space, steps);
    for child in node.children.as_slice() {
        renew_from(page, *child, &inside, change, steps)?;
    }
    Ok(())
}
