ghost use Rattle.std.specs.Prelude.{◌≡◌, ◌+◌, ◌≤◌, IsTrue, length, take, reverse};
ghost use Rattle.box_tree.specs.Contents.{has_id};
ghost use Rattle.point_query.specs.Chain.{chain_of};

use box_tree::Page;
use fractions::{Ledger, Steps};
use tree_edits::Engine;

/// The chain of an element of the page: its ancestors and the element itself, root first.
///
/// It is written into the room, whatever that holds, and takes no memory. It takes a step for each member.
pub fn chain<'a, L: Ledger>(
    engine: &Engine,
    room: &'a mut [u32],
    id: u32,
    steps: &mut Steps<L>,
) -> &'a [u32]
    requires there { IsTrue (has_id engine.now.contents id) }
    requires room { 256 ≤ length room.old }
    ensures chain { result.now ≡ chain_of engine.now.contents id }
    ensures short { length result.now ≤ 256 }
    ensures cost { steps.new ≤ steps.old + 256 }
{
    chain_in(engine.page(), room, id, steps)
}

// The same on the page.
fn chain_in<'a, L: Ledger>(
    page: &Page,
    room: &'a mut [u32],
    id: u32,
    steps: &mut Steps<L>,
) -> &'a [u32]
    requires there { IsTrue (has_id page.now.contents id) }
    requires room { 256 ≤ length room.old }
    ensures chain { result.now ≡ chain_of page.now.contents id }
    ensures short { length result.now ≤ 256 }
    ensures cost { steps.new ≤ steps.old + 256 }
{
    let count = write_upwards(page, room, id, steps);
    let chain = &mut room[..count];
    chain.reverse();
    chain
}

// Writes the ids of a node and of its ancestors, from the node on up, and answers how many they are.
fn write_upwards<L: Ledger>(page: &Page, room: &mut [u32], id: u32, steps: &mut Steps<L>) -> usize
    requires there { IsTrue (has_id page.now.contents id) }
    requires room { 256 ≤ length room.old }
    ensures ids { reverse (take result room.new) ≡ chain_of page.now.contents id }
    ensures len { length room.new ≡ length room.old }
    ensures short { result ≤ 256 }
    ensures cost { steps.new ≡ steps.old + result }
{
    page.validity();
    let mut count = 0;
    let mut above = id;
    while above != 0 {
        let parent = page.node(above, steps).parent;
        room[count] = above;
        count += 1;
        above = parent;
    }
    count
}
