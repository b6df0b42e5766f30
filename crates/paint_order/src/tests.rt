ghost use Rattle.std.specs.Prelude.{◌≡◌, ◌+◌, ◌<◌, IfOk};
ghost use Rattle.std.specs.List.{All};
ghost use Rattle.paint_order.specs.declared.entry.Entry.TheVariants.{Item};
ghost use Rattle.paint_order.specs.Lists.{Stands};
ghost use Rattle.paint_order.specs.Order.{IsWhole, NestWithin};

use crate::Entry::{Item, Sub};
use crate::{Forest, OutOfMemory};
use fractions::{Blank, Brand, Ledger, Steps};
use std::alloc::Global;
use std::process::Abort;
use std::test::Fail;

/// Compares each two of the items, which are given in the order of the flattened root list.
fn assert_order<L: Ledger>(rt: &impl Abort, forest: &Forest, items: &[u32], steps: &mut Steps<L>)
    requires whole { IsWhole forest.now.lists forest.now.root }
    requires shallow { NestWithin 256 forest.now.lists }
    requires stand { All (λ i. Stands forest.now.lists (Item i)) items.now }
{
    for first in 0..items.len() {
        for second in 0..items.len() {
            let is_before = forest.before(items[first], items[second], steps);
            assert_eq!(rt; is_before, first < second);
        }
    }
}

/// Asks of each of the items whether it stands in a list.
fn assert_stand<L: Ledger>(
    rt: &impl Abort,
    forest: &Forest,
    items: &[u32],
    expected: bool,
    steps: &mut Steps<L>,
) {
    for item in items {
        let stands = forest.stands(*item, steps);
        assert_eq!(rt; stands, expected);
    }
}

/// List 0 holds item 5, list 2, item 1 and list 1; list 2 holds item 3, list 3 and item 0; list 3 holds item 4; list
/// 1 holds item 2.
fn nested_lists<L: Ledger>(
    rt: &impl Abort,
    alloc: Global,
    steps: &mut Steps<L>,
) -> Result<(), Fail> {
    let mut forest = Forest::new(alloc, 0)?;
    forest.reserve(6, 4)?;
    forest.put_list(3, vec![in alloc; Item { item: 4 }]?, steps);
    forest.put_list(1, vec![in alloc; Item { item: 2 }]?, steps);
    forest.put_list(
        2,
        vec![in alloc; Item { item: 3 }, Sub { list: 3 }, Item { item: 0 }]?,
        steps,
    );
    forest.put_list(
        0,
        vec![in alloc;
            Item { item: 5 },
            Sub { list: 2 },
            Item { item: 1 },
            Sub { list: 1 },
        ]?,
        steps,
    );
    assert_order(rt, &forest, &[5, 3, 4, 0, 1, 2], steps);
    Ok(())
}

/// List 0 holds item 0, list 1 and item 1, and list 1 holds item 2. Then list 0 is put anew: item 1, item 3, list 1,
/// item 0. More room changes nothing: items 4 and 8 have room and stand nowhere, and item 9 is past the room.
fn list_put_anew<L: Ledger>(
    rt: &impl Abort,
    alloc: Global,
    steps: &mut Steps<L>,
) -> Result<(), Fail> {
    let mut forest = Forest::new(alloc, 0)?;
    forest.reserve(4, 2)?;
    forest.put_list(1, vec![in alloc; Item { item: 2 }]?, steps);
    forest.put_list(
        0,
        vec![in alloc; Item { item: 0 }, Sub { list: 1 }, Item { item: 1 }]?,
        steps,
    );
    forest.put_list(
        0,
        vec![in alloc;
            Item { item: 1 },
            Item { item: 3 },
            Sub { list: 1 },
            Item { item: 0 },
        ]?,
        steps,
    );
    forest.reserve(9, 1)?;
    assert_order(rt, &forest, &[1, 3, 2, 0], steps);
    assert_stand(rt, &forest, &[1, 3, 2, 0], true, steps);
    assert_stand(rt, &forest, &[4, 8, 9], false, steps);
    Ok(())
}

/// List 0 holds item 0 and list 1, which holds items 1 and 2. Then list 1 is the root list, and list 0 stands in it
/// between them.
fn another_root<L: Ledger>(
    rt: &impl Abort,
    alloc: Global,
    steps: &mut Steps<L>,
) -> Result<(), Fail> {
    let mut forest = Forest::new(alloc, 0)?;
    forest.reserve(3, 2)?;
    forest.put_list(
        1,
        vec![in alloc; Item { item: 1 }, Item { item: 2 }]?,
        steps,
    );
    forest.put_list(0, vec![in alloc; Item { item: 0 }, Sub { list: 1 }]?, steps);
    forest.put_list(0, vec![in alloc; Item { item: 0 }]?, steps);
    forest.put_list(
        1,
        vec![in alloc; Item { item: 1 }, Sub { list: 0 }, Item { item: 2 }]?,
        steps,
    );
    forest.set_root(1);
    assert_order(rt, &forest, &[1, 0, 2], steps);
    Ok(())
}

/// List 1 with item 1 comes before item 0. Then it is dropped, and its item stands nowhere until it is put behind item
/// 0.
fn dropped_list<L: Ledger>(
    rt: &impl Abort,
    alloc: Global,
    steps: &mut Steps<L>,
) -> Result<(), Fail> {
    let mut forest = Forest::new(alloc, 0)?;
    forest.reserve(2, 2)?;
    forest.put_list(1, vec![in alloc; Item { item: 1 }]?, steps);
    forest.put_list(0, vec![in alloc; Sub { list: 1 }, Item { item: 0 }]?, steps);
    forest.put_list(0, vec![in alloc; Item { item: 0 }]?, steps);
    forest.drop_list(1, steps);
    assert_stand(rt, &forest, &[1], false, steps);
    forest.put_list(
        0,
        vec![in alloc; Item { item: 0 }, Item { item: 1 }]?,
        steps,
    );
    assert_order(rt, &forest, &[0, 1], steps);
    assert_stand(rt, &forest, &[0, 1], true, steps);
    Ok(())
}

/// Lists of three, of one and of no entries take four steps, and one that is dropped takes one.
fn steps_of_lists<L: Ledger>(alloc: Global, steps: &mut Steps<L>) -> Result<(), Fail>
    ensures { IfOk result (λ _. steps.new ≡ steps.old + 5) }
{
    let mut forest = Forest::new(alloc, 1)?;
    forest.reserve(3, 3)?;
    forest.put_list(0, vec![in alloc; Item { item: 2 }]?, steps);
    forest.put_list(
        1,
        vec![in alloc; Item { item: 1 }, Sub { list: 0 }, Item { item: 0 }]?,
        steps,
    );
    forest.put_list(2, Vec::new(alloc), steps);
    forest.drop_list(2, steps);
    Ok(())
}

fn compare_all<L: Ledger>(rt: &impl Abort, alloc: Global, blank: Blank) -> Result<(), Fail>
    requires name { blank.name ≡ L.name }
    requires parts { blank.parts ≡ L.parts }
    requires some_parts { 0 < blank.parts }
{
    let mut steps = Steps::<L>::new(blank);
    nested_lists(rt, alloc, &mut steps)?;
    list_put_anew(rt, alloc, &mut steps)?;
    another_root(rt, alloc, &mut steps)?;
    dropped_list(rt, alloc, &mut steps)?;
    steps_of_lists(alloc, &mut steps)
}

#[test]
fn items_stand_as_in_the_flattened_root_list(rt: HostRuntime) -> Result<(), Fail> {
    compare_all::<Brand>(&rt, rt.alloc(), Blank::new(1))
}

#[test]
fn says_why_there_is_no_room(rt: HostRuntime) -> Result<(), Fail> {
    let text = format!(in rt.alloc(); "{OutOfMemory}")?;
    assert_eq!(rt; text.as_str(), "out of memory");
    Ok(())
}
