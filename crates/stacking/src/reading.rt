ghost use Rattle.std.specs.Prelude.{◌≡◌, ◌<◌, Some, IsTrue};
ghost use Rattle.std.specs.Option.{option_map, option_copied};
ghost use Rattle.box_tree.specs.Contents.{IsValid, has_id, node_of, ancestors_of};
ghost use Rattle.box_tree.specs.Kept.{label_of};
ghost use Rattle.box_tree.specs.Containing.{parent_of};
ghost use Rattle.box_tree.specs.Numbers.{numbers_of};

use box_tree::{Node, Page};
use fractions::{Blank, Brand, Ledger, Steps};

// The node of an id. The step is counted by a counter of its own.
pub(crate) fn read(page: &Page, id: u32) -> &Node
    requires { IsTrue (has_id page.now.contents id) }
    ensures { node_of page.now.contents id ≡ Some result.now }
{
    read_with::<Brand>(page, id, Blank::new(1))
}

// The node of an id, with the ledger for the counter.
fn read_with<L: Ledger>(page: &Page, id: u32, blank: Blank) -> &Node
    requires there { IsTrue (has_id page.now.contents id) }
    requires name { blank.name ≡ L.name }
    requires parts { blank.parts ≡ L.parts }
    requires some_parts { 0 < blank.parts }
    ensures { node_of page.now.contents id ≡ Some result.now }
{
    page.node(id, &mut Steps::<L>::new(blank))
}

// The parent of a node, none of the root.
pub(crate) fn parent_in(page: &Page, id: u32) -> Option<&Node>
    requires valid { IsValid page.now.contents }
    requires there { IsTrue (has_id page.now.contents id) }
    ensures { option_map label_of (option_copied result) ≡ parent_of (ancestors_of page.now.contents id) }
{
    let parent = read(page, id).parent;
    if parent == 0 {
        None
    } else {
        Some(read(page, parent))
    }
}

// The numbers of the items of a node. The step is counted by a counter of its own.
pub(crate) fn numbers_in(page: &Page, id: u32) -> &[u32]
    ensures { result.now ≡ numbers_of page.now.items id }
{
    numbers_with::<Brand>(page, id, Blank::new(1))
}

// The numbers of the items of a node, with the ledger for the counter.
fn numbers_with<L: Ledger>(page: &Page, id: u32, blank: Blank) -> &[u32]
    requires name { blank.name ≡ L.name }
    requires parts { blank.parts ≡ L.parts }
    requires some_parts { 0 < blank.parts }
    ensures { result.now ≡ numbers_of page.now.items id }
{
    page.items_of(id, &mut Steps::<L>::new(blank))
}
