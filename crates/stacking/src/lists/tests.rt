use super::*;
use crate::pages::{DISPLAY_BLOCK, FLOAT, Look, PLAIN, RELATIVE, add, with_z};
use box_tree::Kind;
use std::process::Abort;
use std::test::Fail;

// What stands in a list: an item, by its node and its place among the items of that, or a stacking context.
#[derive(Clone, Copy)]
enum Stands {
    Item(u32, usize),
    Context(u32),
}

// The first item of a node.
fn item(node: u32) -> Stands {
    Stands::Item(node, 0)
}

// A stacking context.
fn context(id: u32) -> Stands {
    Stands::Context(id)
}

// The entry, with the number that the item has on the page.
fn entry_of(rt: &impl Abort, page: &Page, stands: Stands) -> Entry {
    match stands {
        Stands::Item(node, place) => Entry::Item {
            item: *numbers_in(page, node).get(place).expect(rt, "an item"),
        },
        Stands::Context(list) => Entry::Sub { list },
    }
}

// The entries of the lists of all stacking contexts, each with its context, from the lowest id up.
fn all_lists(alloc: Global, page: &Page) -> Result<Vec<(u32, Entry)>, Fail> {
    let mut all = Vec::new(alloc);
    for id in 1..=8 {
        if page.has(id) && page.makes_context(id) {
            for entry in lists_of(alloc, page, id)?.as_slice() {
                all.push((id, *entry))?;
            }
        }
    }
    Ok(all)
}

// Adds up to eight nodes to a page, and compares the lists of all stacking contexts.
fn compare(
    rt: &impl Abort,
    alloc: Global,
    adds: &[(u32, u32, Kind, Look)],
    stand: &[(u32, Stands)],
) -> Result<(), Fail> {
    let mut page = Page::new(alloc, 81_920, 46_080);
    for adding in adds {
        add(rt, alloc, &mut page, *adding)?;
    }
    let mut expected = Vec::new(alloc);
    for (id, stands) in stand {
        expected.push((*id, entry_of(rt, &page, *stands)))?;
    }
    assert_eq!(rt; all_lists(alloc, &page)?.as_slice(), expected.as_slice());
    Ok(())
}

#[test]
fn lists_are_walked_in_painting_order(rt: HostRuntime) -> Result<(), Fail> {
    let alloc = rt.alloc();
    let root = (0, 0, Kind::Block, PLAIN);
    for (adds, stand) in [
        // a z-index, auto, a block with a text, a float, a block, a negative z-index
        (
            [
                root,
                (1, 0, Kind::Block, with_z(1)),
                (1, 1, Kind::Block, RELATIVE),
                (1, 2, Kind::Block, PLAIN),
                (4, 0, Kind::Text, PLAIN),
                (1, 3, Kind::Block, FLOAT),
                (1, 4, Kind::Block, PLAIN),
                (1, 5, Kind::Block, with_z(-1)),
            ]
            .as_slice(),
            [
                (1, item(1)),
                (1, context(8)),
                (1, item(4)),
                (1, item(7)),
                (1, item(6)),
                (1, item(5)),
                (1, item(3)),
                (1, context(2)),
                (2, item(2)),
                (8, item(8)),
            ]
            .as_slice(),
        ),
        // a node with z auto gives its members to the context around
        (
            [
                root,
                (1, 0, Kind::Block, RELATIVE),
                (2, 0, Kind::Block, with_z(5)),
                (1, 1, Kind::Block, with_z(1)),
            ]
            .as_slice(),
            [
                (1, item(1)),
                (1, item(2)),
                (1, context(4)),
                (1, context(3)),
                (3, item(3)),
                (4, item(4)),
            ]
            .as_slice(),
        ),
        // and one with z 0 keeps them
        (
            [
                root,
                (1, 0, Kind::Block, with_z(0)),
                (2, 0, Kind::Block, with_z(5)),
                (1, 1, Kind::Block, with_z(1)),
            ]
            .as_slice(),
            [
                (1, item(1)),
                (1, context(2)),
                (1, context(4)),
                (2, item(2)),
                (2, context(3)),
                (3, item(3)),
                (4, item(4)),
            ]
            .as_slice(),
        ),
        // the content of an image lies on lines, above the boxes of blocks
        (
            [
                root,
                (1, 0, Kind::Image, DISPLAY_BLOCK),
                (1, 1, Kind::Block, PLAIN),
            ]
            .as_slice(),
            [
                (1, item(1)),
                (1, item(2)),
                (1, item(3)),
                (1, Stands::Item(2, 1)),
            ]
            .as_slice(),
        ),
        // the outlines of the shapes in an svg, which stands in a line: those of a group, and one beside it
        (
            [
                root,
                (1, 0, Kind::Svg, PLAIN),
                (2, 0, Kind::Group, with_z(-1)),
                (3, 0, Kind::Shape, PLAIN),
                (2, 1, Kind::Shape, PLAIN),
                (1, 1, Kind::Block, PLAIN),
            ]
            .as_slice(),
            [
                (1, item(1)),
                (1, item(6)),
                (1, item(2)),
                (1, item(4)),
                (1, item(5)),
            ]
            .as_slice(),
        ),
        // a block in an inline is painted below the inline, and an inline-block as one
        (
            [
                root,
                (1, 0, Kind::Inline, PLAIN),
                (2, 0, Kind::Block, PLAIN),
                (1, 1, Kind::InlineBlock, PLAIN),
                (4, 0, Kind::Block, PLAIN),
                (2, 1, Kind::Text, PLAIN),
            ]
            .as_slice(),
            [
                (1, item(1)),
                (1, item(3)),
                (1, item(2)),
                (1, item(6)),
                (1, item(4)),
                (1, item(5)),
            ]
            .as_slice(),
        ),
    ] {
        compare(&rt, alloc, adds, stand)?;
    }
    Ok(())
}
