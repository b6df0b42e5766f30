use crate::changes::{renewed, touched};
use crate::context::context_of;
use crate::lists::lists_of;
use crate::pages::{FLOAT, PLAIN, RELATIVE, add, with_z};
use box_tree::{Edit, Kind, Page};
use computed_style::Style;
use paint_order::Entry;
use std::alloc::Global;
use std::process::Abort;
use std::test::Fail;

// A page with two contexts in the root's, one of them in a positioned node that is none, and with one in a context. Each node
// has one box, so that of the node 1 has the number 0, that of the node 2 the number 1, and so on.
fn nested_page(rt: &impl Abort, alloc: Global) -> Result<Page, Fail> {
    let mut page = Page::new(alloc, 81_920, 46_080);
    for adding in [
        (0, 0, Kind::Block, PLAIN),
        (1, 0, Kind::Block, with_z(1)),
        (2, 0, Kind::Block, PLAIN),
        (2, 1, Kind::Block, with_z(-1)),
        (1, 1, Kind::Block, RELATIVE),
        (5, 0, Kind::Block, with_z(5)),
        (5, 1, Kind::Block, FLOAT),
        (1, 2, Kind::Block, FLOAT),
        (1, 3, Kind::Block, PLAIN),
        (9, 0, Kind::Text, PLAIN),
    ] {
        add(rt, alloc, &mut page, adding)?;
    }
    Ok(page)
}

// An item in a list.
fn own(item: u32) -> Entry {
    Entry::Item { item }
}

// A stacking context in a list.
fn context(list: u32) -> Entry {
    Entry::Sub { list }
}

#[test]
fn the_context_around_is_the_nearest_above(rt: HostRuntime) -> Result<(), Fail> {
    let alloc = rt.alloc();
    let mut page = Page::new(alloc, 81_920, 46_080);
    for adding in [
        (0, 0, Kind::Block, PLAIN),
        (1, 0, Kind::Block, RELATIVE),
        (2, 0, Kind::Block, with_z(5)),
        (3, 0, Kind::Block, PLAIN),
        (4, 0, Kind::Text, PLAIN),
    ] {
        add(&rt, alloc, &mut page, adding)?;
    }
    for (id, expected) in [(1, 0), (2, 1), (3, 1), (4, 3), (5, 3)] {
        assert!(rt; page.has(id));
        assert_eq!(rt; context_of(&page, id), expected, "above {id}");
    }
    Ok(())
}

#[test]
fn each_context_has_its_own_list(rt: HostRuntime) -> Result<(), Fail> {
    let alloc = rt.alloc();
    let page = nested_page(&rt, alloc)?;
    for (id, expected) in [
        (
            1,
            [
                own(0),
                own(8),
                own(7),
                own(9),
                own(4),
                own(6),
                context(2),
                context(6),
            ]
            .as_slice(),
        ),
        (2, [own(1), context(4), own(2)].as_slice()),
        (4, [own(3)].as_slice()),
        (6, [own(5)].as_slice()),
    ] {
        assert!(rt; page.has(id));
        assert!(rt; page.makes_context(id));
        let list = lists_of(alloc, &page, id)?;
        assert_eq!(rt; list.as_slice(), expected, "of {id}");
    }
    Ok(())
}

#[test]
fn an_edit_touches_the_contexts_around_it(rt: HostRuntime) -> Result<(), Fail> {
    let alloc = rt.alloc();
    let mut page = nested_page(&rt, alloc)?;
    for (edit, expected) in [
        (Edit::Remove { id: 1 }, [1, 2, 4, 6].as_slice()),
        (Edit::Remove { id: 2 }, [1, 2, 4].as_slice()),
        (
            Edit::Move {
                id: 3,
                parent: 6,
                at: 0,
            },
            [2, 6].as_slice(),
        ),
        (
            Edit::Move {
                id: 9,
                parent: 5,
                at: 0,
            },
            [1].as_slice(),
        ),
        (
            Edit::Restyle {
                id: 5,
                style: Style::new(alloc),
            },
            [1, 6].as_slice(),
        ),
        (Edit::ScrollView { x: 0, y: 0 }, [].as_slice()),
    ] {
        assert!(rt; edit.in_range());
        page.check(&edit)?;
        let ids = touched(alloc, &page, &edit)?;
        assert_eq!(rt; ids.as_slice(), expected);
    }
    Ok(())
}

#[test]
fn lists_are_made_anew_around_a_node(rt: HostRuntime) -> Result<(), Fail> {
    let alloc = rt.alloc();
    let page = nested_page(&rt, alloc)?;
    for (node, touched, expected) in [
        (5, [].as_slice(), [1, 6].as_slice()),
        (2, [4, 2].as_slice(), [1, 2, 4].as_slice()),
        (4, [6, 3, 6, 99].as_slice(), [2, 4, 6].as_slice()),
        (99, [4, 1, 4, 5].as_slice(), [4, 1].as_slice()),
        (0, [].as_slice(), [].as_slice()),
    ] {
        let ids = renewed(alloc, &page, node, touched)?;
        assert_eq!(rt; ids.as_slice(), expected, "around {node}");
    }
    Ok(())
}
