// Edits that are taken back, and then carried out.
use super::*;

// The name of the map of a node, where it has one.
fn map_of(node: &Node) -> Option<u32> {
    match &node.form {
        Some(Form::MapName(map)) => Some(*map),
        _ => None,
    }
}

// Whether two nodes are alike.
fn is_same(a: &Node, b: &Node) -> bool {
    a.kind == b.kind
        && a.parent == b.parent
        && a.children.as_slice() == b.children.as_slice()
        && a.depth == b.depth
        && a.style.floats == b.style.floats
        && a.anchor == b.anchor
        && a.boxes.as_slice() == b.boxes.as_slice()
        && map_of(a) == map_of(b)
        && a.scroll == b.scroll
        && a.max == b.max
}

// Whether two pages have like nodes with this id, or none.
fn has_same(a: &Page, b: &Page, id: u32) -> bool {
    match (a.find(id), b.find(id)) {
        (Some(a), Some(b)) => is_same(a, b),
        (None, None) => true,
        _ => false,
    }
}

// Edits that change a node or the viewport: each kind of them.
fn push_changes(alloc: Global, edits: &mut Vec<Edit>) -> Result<(), Fail> {
    edits.push(place(alloc, 1, 1)?)?;
    edits.push(place(alloc, 5, 0)?)?;
    let mut style = Style::new(alloc);
    style.floats = true;
    edits.push(Edit::Restyle { id: 5, style })?;
    edits.push(Edit::Scroll { id: 1, x: 4, y: 9 })?;
    edits.push(Edit::Reshape {
        id: 8,
        form: Form::MapName(7),
    })?;
    edits.push(Edit::Resize {
        w: 64,
        h: 128,
        max: Spot { x: 3, y: 4 },
    })?;
    edits.push(Edit::ScrollView { x: 9, y: 2 })?;
    Ok(())
}

// Adds of blocks with a box.
fn push_blocks(alloc: Global, edits: &mut Vec<Edit>, rows: &[(u32, u32)]) -> Result<(), Fail> {
    for (parent, at) in rows {
        edits.push(add(alloc, *parent, *at, Kind::Block, 1)?)?;
    }
    Ok(())
}

// An edit of each kind, edits of trees of several nodes, and adds in front, in the midst and at the end of the children of a
// node, past each power of two up to eight.
fn each_kind(alloc: Global) -> Result<Vec<Edit>, Fail> {
    let mut edits = Vec::new(alloc);
    let first = [(0, 0), (1, 0), (1, 1), (1, 1), (2, 0), (5, 0), (5, 1)];
    push_blocks(alloc, &mut edits, &first)?;
    edits.push(add(alloc, 4, 0, Kind::Image, 1)?)?;
    push_changes(alloc, &mut edits)?;
    for (id, parent, at) in [(2, 4, 0), (5, 1, 1), (3, 1, 0), (4, 5, 2)] {
        edits.push(Edit::Move { id, parent, at })?;
    }
    for id in [6, 5, 1] {
        edits.push(Edit::Remove { id })?;
    }
    edits.push(add(alloc, 0, 0, Kind::Block, 1)?)?;
    let last = [
        (9, 0),
        (9, 0),
        (9, 1),
        (9, 3),
        (9, 0),
        (9, 2),
        (9, 6),
        (9, 3),
        (9, 8),
        (9, 5),
    ];
    push_blocks(alloc, &mut edits, &last)?;
    Ok(edits)
}

// Compares two pages, node by node.
fn assert_same(rt: &impl Abort, page: &Page, other: &Page) {
    for id in 0..page.next_id() {
        assert!(rt; has_same(page, other, id), "{id}");
    }
    assert_eq!(rt; page.root(), other.root());
    assert_eq!(rt; page.count(), other.count());
    assert_eq!(rt; page.next_id(), other.next_id());
    assert_eq!(rt; page.viewport(), other.viewport());
}

// Carries an edit out on both pages, which answer the same.
fn goes_on(rt: &impl Abort, page: &mut Page, other: &mut Page, edit: &Edit) {
    let done = answer(rt, page, edit);
    assert!(rt; done.is_ok());
    assert_eq!(rt; done, answer(rt, other, edit));
}

#[test]
fn an_edit_that_is_taken_back_leaves_the_page_as_it_was(rt: HostRuntime) -> Result<(), Fail> {
    let alloc = rt.alloc();
    let mut page = Page::new(alloc, 81_920, 46_080);
    let mut other = Page::new(alloc, 81_920, 46_080);
    for edit in each_kind(alloc)?.as_slice() {
        revert(&rt, &mut page, edit);
        assert_same(&rt, &page, &other);
        goes_on(&rt, &mut page, &mut other, edit);
    }
    assert_eq!(rt; page.root(), Some(9));
    assert!(rt; page.has(9));
    let children = children_with::<Brand>(alloc, &page, 9, Blank::new(1))?;
    assert_eq!(rt;
        children.as_slice(),
        [14, 11, 15, 17, 12, 19, 10, 13, 16, 18].as_slice()
    );
    Ok(())
}

// The next number of a walk, by a linear congruence.
fn next_number(number: u32) -> u32 {
    number.wrapping_mul(1_664_525).wrapping_add(1_013_904_223)
}

// The edit of a number, on a page that gives this id next; many of them have a fault.
fn edit_of(alloc: Global, number: u32, next_id: u32) -> Result<Edit, Fail> {
    let id = (number >> 3).checked_rem(next_id).unwrap_or(0).max(2);
    let parent = (number >> 9).checked_rem(next_id).unwrap_or(0);
    let at = (number >> 18) % 2;
    match number >> 28 {
        0..=5 => add(alloc, parent, at, Kind::Block, 1),
        6..=8 => add(alloc, parent, at, Kind::Inline, 2),
        9 => place(alloc, id, 1),
        10 => place(alloc, id, 0),
        11..=14 => Ok(Edit::Move { id, parent, at }),
        _ => Ok(Edit::Remove { id }),
    }
}

// A walk of edits, each taken back and done again, beside a page that never takes one back. At least a hundred are taken.
#[test]
fn a_walk_of_edits_goes_back_at_each_step(rt: HostRuntime) -> Result<(), Fail> {
    let alloc = rt.alloc();
    let mut page = Page::new(alloc, 81_920, 46_080);
    let mut other = Page::new(alloc, 81_920, 46_080);
    goes_on(
        &rt,
        &mut page,
        &mut other,
        &add(alloc, 0, 0, Kind::Block, 1)?,
    );
    let mut number = 1;
    let mut taken = 0u64;
    for _ in 0..400 {
        number = next_number(number);
        let edit = edit_of(alloc, number, page.next_id())?;
        revert(&rt, &mut page, &edit);
        assert_same(&rt, &page, &other);
        let done = answer(&rt, &mut page, &edit);
        assert_eq!(rt; done, answer(&rt, &mut other, &edit));
        assert_same(&rt, &page, &other);
        taken = u64::from(done.is_ok()).saturating_add(taken);
    }
    assert!(rt; taken >= 100);
    Ok(())
}
