// Which of two items is painted first, in a forest of lists: a list of entries under a number, each of them an item
// or the number of another list, in whose place the entries of that list are painted.
//
// A forest keeps for each item and each list where it stands, so that putting a list costs a step for each entry and
// nothing for the lists around it, and comparing two items costs a step for each list that they stand in, however
// long the lists are. It promises that `before` is the order of the flattened root list, in at most 512 steps where
// lists nest at most 256 deep, and that each call changes the list that it names and nothing else. Only `new` and
// `reserve` take memory: whoever changes a forest reserves the room first, and then no change can fail.
//
//     let mut forest = Forest::new(alloc, 0)?;
//     forest.reserve(3, 2)?;
//     forest.put_list(1, vec![in alloc; Entry::Item { item: 2 }]?, steps);
//     let items = [Entry::Item { item: 0 }, Entry::Sub { list: 1 }, Entry::Item { item: 1 }];
//     forest.put_list(0, Vec::from_array(alloc, items)?, steps);
//
// The flattened root list is now 0, 2, 1: `forest.before(2, 1, steps)` is true, and `forest.before(2, 0, steps)` is
// false.
//
// The crate knows nothing of what the items are. It stands on `fractions` for the counter of steps, and on std.
#![tactic(auto)]

mod entry;
mod forest;
mod memory;
mod path;
mod place;
mod places;

pub use entry::Entry;
pub use forest::Forest;
pub use memory::OutOfMemory;

#[cfg(test)]
mod tests;
