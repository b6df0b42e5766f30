// Spaces, local points and values that were worked out by hand, as the table of a page has them.
ghost use Rattle.std.specs.Prelude.{◌≡◌, ◌<◌, IfOk, OnOk};
ghost use Rattle.box_tree.specs.Contents.{Contents};
ghost use Rattle.box_tree.specs.Edited.{edited};
ghost use Rattle.box_tree.specs.Frame.{IsFaultless};
ghost use Rattle.spaces.specs.Table.{renewed_node, IsTableOf};

use crate::views::is_laid_out;
use crate::{BoundOrMemory, FinePoint, SpaceTable};
use Function::{Matrix, Quarter, Scale, Translate};
use Kind::{Area, Block, Group, Inline, Inner, Shape, Svg, Text};
use Looks::{Clips, Declares, Plain, Turns};
use Position::{Absolute, Fixed, Relative, Static};
use affine::Parts;
use box_tree::{Edit, Form, Kind, Page, Piece, PieceList};
use computed_style::{Function, Overflow, PointerEvents, Position, Style};
use fractions::{Blank, Brand, Ledger, Spot, Steps};
use std::alloc::Global;
use std::process::Abort;
use std::test::Fail;
use view_boxes::{Align, Fit, Port, Side, ViewBox};

// What else is declared on a node.
#[derive(Clone, Copy)]
enum Looks {
    Plain,
    Clips(Overflow),
    // one or two functions around an origin
    Turns(Function, Option<Function>, Option<(i64, i64)>),
    Declares(Option<bool>, Option<PointerEvents>),
}

// A node that is added as the first child of its parent: the parent, its kind, its position, its borders, what else is
// declared on it, and the corner and the sides of its box.
type Row = (
    u32,
    Kind,
    Position,
    [i64; 4],
    Looks,
    Option<(i64, i64, i64, i64)>,
);

const NONE: [i64; 4] = [0, 0, 0, 0];

fn box_at(alloc: Global, sides: Option<(i64, i64, i64, i64)>) -> Result<PieceList, Fail> {
    let mut pieces = Vec::new(alloc);
    if let Some((l, t, w, h)) = sides {
        pieces.push(Piece {
            line: 0,
            l,
            t,
            w,
            h,
        })?;
    }
    Ok(PieceList(pieces))
}

fn style_of(
    alloc: Global,
    position: Position,
    border: [i64; 4],
    looks: Looks,
) -> Result<Style, Fail> {
    let mut style = Style::new(alloc);
    style.position = position;
    style.border = border;
    match looks {
        Plain => {}
        Clips(overflow) => style.overflow = Some(overflow),
        Turns(first, second, origin) => {
            style.transform.0.push(first)?;
            if let Some(second) = second {
                style.transform.0.push(second)?;
            }
            style.origin = origin;
        }
        Declares(visible, pointer) => {
            style.visible = visible;
            style.pointer = pointer;
        }
    }
    Ok(style)
}

// Carries an edit out.
fn apply(rt: &impl Abort, page: &mut Page, edit: &Edit) -> Result<(), Fail>
    ensures faultless { OnOk result (IsFaultless page.old.contents edit.now) }
    ensures edited { OnOk result (page.new.contents ≡ edited page.old.contents edit.now) }
{
    page.validity();
    assert!(rt; edit.in_range());
    let prepared = page.check(edit)?;
    let undo = page.commit(prepared);
    page.settle(undo);
    Ok(())
}

fn page_of(rt: &impl Abort, alloc: Global, rows: &[Row]) -> Result<Page, Fail> {
    let mut page = Page::new(alloc, 81_920, 46_080);
    for &(parent, kind, position, border, looks, sides) in rows {
        let edit = Edit::Add {
            parent,
            at: 0,
            kind,
            boxes: box_at(alloc, sides)?,
            style: style_of(alloc, position, border, looks)?,
        };
        apply(rt, &mut page, &edit)?;
    }
    Ok(page)
}

// Places a node anew, by its anchor and its box, with a greatest scroll of 40 units each way.
fn place(
    alloc: Global,
    id: u32,
    anchor: Spot,
    sides: Option<(i64, i64, i64, i64)>,
) -> Result<Edit, Fail>
    ensures node { IfOk result (λ edit. (page : Contents) → renewed_node page edit ≡ id) }
{
    Ok(Edit::Place {
        id,
        anchor,
        boxes: box_at(alloc, sides)?,
        max: Spot { x: 40, y: 40 },
    })
}

// A page whose blocks have borders and whose node 8 has an anchor.
fn bordered(rt: &impl Abort, alloc: Global) -> Result<Page, Fail> {
    let rows = [
        (
            0,
            Block,
            Static,
            [1, 2, 3, 4],
            Plain,
            Some((10, 20, 50, 50)),
        ),
        (1, Block, Static, NONE, Plain, Some((5, 6, 50, 50))),
        (
            2,
            Inline,
            Relative,
            [2, 0, 0, 3],
            Plain,
            Some((7, 8, 50, 50)),
        ),
        (3, Block, Absolute, NONE, Plain, Some((0, 0, 50, 50))),
        (3, Text, Static, NONE, Plain, None),
        (
            4,
            Block,
            Fixed,
            [9, 9, 9, 8],
            Plain,
            Some((100, 200, 50, 50)),
        ),
        (6, Block, Static, NONE, Plain, Some((1, 1, 50, 50))),
        (7, Block, Static, [5, 5, 5, 5], Plain, None),
        (8, Block, Static, NONE, Plain, None),
        (9, Inline, Absolute, NONE, Plain, None),
    ];
    let mut page = page_of(rt, alloc, &rows)?;
    apply(rt, &mut page, &place(alloc, 8, Spot { x: -3, y: 4 }, None)?)?;
    Ok(page)
}

// A page whose nodes 1, 2, 5 and 7 are scrolled. Of these node 2 alone clips: node 1 is the root, the overflow of node 5 is
// visible, and node 7 is no block container.
fn scrolling(rt: &impl Abort, alloc: Global) -> Result<Page, Fail> {
    let sides = Some((5, 6, 50, 50));
    let border = [2, 0, 0, 3];
    let rows = [
        (0, Block, Static, border, Clips(Overflow::Clip), sides),
        (1, Block, Static, border, Clips(Overflow::Auto), sides),
        (2, Block, Static, border, Plain, sides),
        (2, Block, Absolute, border, Plain, sides),
        (1, Block, Static, border, Clips(Overflow::Visible), sides),
        (5, Block, Static, border, Plain, sides),
        (1, Inline, Relative, border, Clips(Overflow::Clip), sides),
        (7, Block, Absolute, border, Plain, sides),
    ];
    let mut page = page_of(rt, alloc, &rows)?;
    for id in [1, 2, 5, 7] {
        apply(
            rt,
            &mut page,
            &place(alloc, id, Spot { x: 0, y: 0 }, sides)?,
        )?;
        apply(rt, &mut page, &Edit::Scroll { id, x: 10, y: 60 })?;
    }
    Ok(page)
}

// A page of nodes in a root, some of them transformed.
fn turned(rt: &impl Abort, alloc: Global) -> Result<Page, Fail> {
    let by_5 = Matrix {
        a: 3,
        b: 4,
        c: -4,
        d: 3,
        e: 0,
        f: 0,
        q: 5,
    };
    let twice = Scale { x: 2, y: 2, q: 1 };
    let flat = Scale { x: 0, y: 1, q: 1 };
    let moved = Translate { x: 5, y: 0 };
    let turn = Some(Quarter { turns: 1 });
    let rows = [
        (0, Block, Static, NONE, Plain, Some((0, 0, 100, 100))),
        (
            1,
            Block,
            Static,
            NONE,
            Turns(by_5, None, None),
            Some((-10, -10, 20, 20)),
        ),
        (
            1,
            Block,
            Static,
            NONE,
            Turns(twice, None, None),
            Some((0, 0, 3, 5)),
        ),
        (
            1,
            Block,
            Static,
            NONE,
            Turns(moved, turn, Some((1, 2))),
            Some((10, 20, 3, 5)),
        ),
        (
            1,
            Inline,
            Static,
            NONE,
            Turns(twice, None, None),
            Some((1, 2, 3, 5)),
        ),
        (
            1,
            Block,
            Static,
            NONE,
            Turns(flat, None, Some((7, 0))),
            None,
        ),
    ];
    page_of(rt, alloc, &rows)
}

fn view(w: i64, h: i64, align: Align, fit: Fit) -> ViewBox {
    ViewBox {
        x: 64,
        y: -128,
        w,
        h,
        align,
        fit,
    }
}

// A page of svgs. That of node 2 shows what is in it, and so does node 5 inside it; node 7 is given no viewport, node 9 has
// no box, and the borders of node 11 leave nothing. The viewBox of node 15 is beyond the bound on maps, and nothing is in it.
fn drawn(rt: &impl Abort, alloc: Global) -> Result<Page, Fail> {
    let twice = Turns(Scale { x: 2, y: 2, q: 1 }, None, Some((5, 6)));
    let rows = [
        (0, Block, Static, NONE, Plain, Some((0, 0, 1000, 1000))),
        (
            1,
            Svg,
            Static,
            [2, 0, 0, 3],
            Plain,
            Some((10, 20, 403, 202)),
        ),
        (2, Group, Static, NONE, Plain, None),
        (3, Shape, Static, NONE, twice, None),
        (2, Inner, Static, NONE, Plain, None),
        (5, Group, Static, NONE, Plain, None),
        (2, Inner, Static, NONE, Plain, None),
        (7, Shape, Static, NONE, Plain, None),
        (1, Svg, Static, NONE, Plain, None),
        (9, Group, Static, NONE, Plain, None),
        (1, Svg, Static, [3, 3, 3, 3], Plain, Some((0, 0, 5, 5))),
        (11, Group, Static, NONE, Plain, None),
        (1, Kind::Map, Static, NONE, Plain, None),
        (13, Area, Static, NONE, Plain, None),
        (1, Svg, Static, NONE, Plain, Some((0, 0, 1, 1))),
    ];
    let middle = Align::Keep {
        x: Side::Mid,
        y: Side::Mid,
    };
    let port = Port {
        x: 640,
        y: 1280,
        w: 25600,
        h: 12800,
        view: Some(view(6400, 6400, middle, Fit::Slice)),
    };
    let beyond = view(4_194_305, 4_194_307, Align::Stretch, Fit::Meet);
    let mut page = page_of(rt, alloc, &rows)?;
    for (id, form) in [
        (2, Form::View(Some(view(6400, 6400, middle, Fit::Meet)))),
        (5, Form::Port(port)),
        (15, Form::View(Some(beyond))),
    ] {
        apply(rt, &mut page, &Edit::Reshape { id, form })?;
    }
    Ok(page)
}

// A page whose node 2 is hidden, what it holds is shown again at twice the size, and nodes 6 and 7 are texts.
fn declared(rt: &impl Abort, alloc: Global) -> Result<Page, Fail> {
    let silent = Some(PointerEvents::None);
    let all = Some(PointerEvents::All);
    let auto = Some(PointerEvents::Auto);
    let rows = [
        (
            0,
            Block,
            Static,
            [1, 2, 3, 4],
            Declares(None, silent),
            Some((0, 0, 50, 50)),
        ),
        (
            1,
            Block,
            Static,
            [2, 0, 0, 3],
            Declares(Some(false), None),
            Some((10, 20, 50, 50)),
        ),
        (
            2,
            Block,
            Relative,
            NONE,
            Declares(Some(true), all),
            Some((1, 1, 50, 50)),
        ),
        (3, Block, Absolute, NONE, Declares(None, auto), None),
        (3, Block, Fixed, NONE, Plain, None),
        (2, Text, Static, NONE, Plain, None),
        (3, Text, Static, NONE, Plain, None),
    ];
    page_of(rt, alloc, &rows)
}

fn by(x: i128, y: i128) -> Option<Parts> {
    map([1, 0, 0, 1], x, y, 1)
}

fn map([a, b, c, d]: [i128; 4], e: i128, f: i128, q: i128) -> Option<Parts> {
    Some(Parts {
        a,
        b,
        c,
        d,
        e,
        f,
        q,
    })
}

fn at(x: i128, y: i128) -> Option<FinePoint> {
    Some(FinePoint { x, y })
}

// The table of a page.
fn kept<L: Ledger>(alloc: Global, page: &Page, steps: &mut Steps<L>) -> Result<SpaceTable, Fail>
    ensures { IfOk result (λ table. IsTableOf table page.now.contents) }
{
    let mut table = SpaceTable::new(alloc);
    let change = table.renew(page, 0)?;
    table.apply(change, &[], steps);
    Ok(table)
}

// Compares the spaces that a table has, and where (20, 30) lies in them.
fn compare<L: Ledger>(
    rt: &impl Abort,
    table: &SpaceTable,
    wanted: &[(u32, Option<Parts>, Option<FinePoint>)],
    steps: &mut Steps<L>,
) {
    for (id, parts, local) in wanted {
        let space = table.space_of(*id, steps).copied();
        assert_eq!(rt; space.map(|map| map.parts()), *parts, "{id}");
        assert_eq!(rt; table.local_point(*id, 20, 30, steps), *local, "{id}");
    }
}

// Compares the values that the table of a page has.
fn compare_values<L: Ledger>(
    rt: &impl Abort,
    table: &SpaceTable,
    page: &Page,
    wanted: &[(u32, bool, PointerEvents)],
    steps: &mut Steps<L>,
)
    requires { IsTableOf table.now page.now.contents }
{
    for &(id, visible, pointer) in wanted {
        assert!(rt; page.has(id) && is_laid_out(page.node(id, steps).kind));
        let values = table.values_of(id, steps);
        assert_eq!(rt;
            (values.visible, values.pointer),
            (visible, pointer),
            "{id}"
        );
    }
}

fn compare_pages<L: Ledger>(rt: &impl Abort, alloc: Global, blank: Blank) -> Result<(), Fail>
    requires name { blank.name ≡ L.name }
    requires parts { blank.parts ≡ L.parts }
    requires some_parts { 0 < blank.parts }
{
    let steps = &mut Steps::<L>::new(blank);
    let table = kept(alloc, &bordered(rt, alloc)?, steps)?;
    let wanted = [
        (1, by(0, 0), at(1280, 1920)),
        (2, by(14, 21), at(384, 576)),
        (3, by(19, 27), at(64, 192)),
        (4, by(29, 37), at(-576, -448)),
        (5, by(19, 27), at(64, 192)),
        (6, by(0, 0), at(1280, 1920)),
        (7, by(108, 209), at(-5632, -11456)),
        (8, by(106, 214), at(-5504, -11776)),
        (9, by(106, 214), at(-5504, -11776)),
        (10, by(108, 209), at(-5632, -11456)),
        (11, None, None),
    ];
    compare(rt, &table, &wanted, steps);
    let table = kept(alloc, &scrolling(rt, alloc)?, steps)?;
    let wanted = [
        (2, by(8, 8), at(768, 1408)),
        (3, by(6, -24), at(896, 3456)),
        (4, by(0, 0), at(1280, 1920)),
        (5, by(8, 8), at(768, 1408)),
        (6, by(16, 16), at(256, 896)),
        (7, by(8, 8), at(768, 1408)),
        (8, by(16, 16), at(256, 896)),
    ];
    compare(rt, &table, &wanted, steps);
    let table = kept(alloc, &turned(rt, alloc)?, steps)?;
    let wanted = [
        (2, map([3, 4, -4, 3], 0, 0, 5), at(2304, 128)),
        (3, map([4, 0, 0, 4], -3, -5, 2), at(688, 1040)),
        (4, map([0, 1, -1, 0], 38, 11, 1), at(1216, 1152)),
        (5, by(0, 0), at(1280, 1920)),
        (6, map([0, 0, 0, 1], 7, 0, 1), None),
    ];
    compare(rt, &table, &wanted, steps);
    let table = kept(alloc, &drawn(rt, alloc)?, steps)?;
    let wanted = [
        (2, by(0, 0), at(1280, 1920)),
        (3, map([2, 0, 0, 2], 111, 26, 1), at(-2912, 128)),
        (4, map([4, 0, 0, 4], 101, 14, 1), at(-1296, 256)),
        (5, map([2, 0, 0, 2], 111, 26, 1), at(-2912, 128)),
        (6, map([8, 0, 0, 8], 123, -118, 1), at(-824, 1184)),
        (7, map([2, 0, 0, 2], 111, 26, 1), at(-2912, 128)),
        (8, None, None),
        (9, by(0, 0), at(1280, 1920)),
        (10, None, None),
        (11, by(0, 0), at(1280, 1920)),
        (12, None, None),
        (13, None, None),
        (14, None, None),
        (15, by(0, 0), at(1280, 1920)),
    ];
    compare(rt, &table, &wanted, steps);
    Ok(())
}

#[test]
fn spaces_are_products_along_containing_blocks(rt: HostRuntime) -> Result<(), Fail> {
    compare_pages::<Brand>(&rt, rt.alloc(), Blank::new(1))
}

// The table of a page after node 2 came to another anchor.
fn follow_place<L: Ledger>(rt: &impl Abort, alloc: Global, blank: Blank) -> Result<(), Fail>
    requires name { blank.name ≡ L.name }
    requires parts { blank.parts ≡ L.parts }
    requires some_parts { 0 < blank.parts }
{
    let steps = &mut Steps::<L>::new(blank);
    let mut page = declared(rt, alloc)?;
    let mut table = kept(alloc, &page, steps)?;
    let edit = place(alloc, 2, Spot { x: -5, y: 3 }, Some((10, 20, 50, 50)))?;
    apply(rt, &mut page, &edit)?;
    let change = table.renew(&page, 2)?;
    table.apply(change, &[], steps);
    let wanted = [
        (1, by(0, 0), at(1280, 1920)),
        (2, by(-1, 4), at(1344, 1664)),
        (3, by(12, 26), at(512, 256)),
        (4, by(13, 27), at(448, 192)),
        (5, by(0, 0), at(1280, 1920)),
        (6, by(12, 26), at(512, 256)),
        (7, by(13, 27), at(448, 192)),
    ];
    compare(rt, &table, &wanted, steps);
    Ok(())
}

// The table of a page before node 3 goes with all below it, and after that.
fn follow_remove<L: Ledger>(rt: &impl Abort, alloc: Global, blank: Blank) -> Result<(), Fail>
    requires name { blank.name ≡ L.name }
    requires parts { blank.parts ≡ L.parts }
    requires some_parts { 0 < blank.parts }
{
    let steps = &mut Steps::<L>::new(blank);
    let mut page = declared(rt, alloc)?;
    let mut table = kept(alloc, &page, steps)?;
    let values = [
        (1, true, PointerEvents::None),
        (2, false, PointerEvents::None),
        (3, true, PointerEvents::All),
        (4, true, PointerEvents::Auto),
        (5, true, PointerEvents::All),
        (6, false, PointerEvents::None),
        (7, true, PointerEvents::All),
    ];
    compare_values(rt, &table, &page, &values, steps);
    apply(rt, &mut page, &Edit::Remove { id: 3 })?;
    assert!(rt; !page.has(3));
    let change = table.renew(&page, 3)?;
    table.apply(change, &[3, 4, 5, 7], steps);
    let wanted = [
        (1, by(0, 0), at(1280, 1920)),
        (2, by(4, 1), at(1024, 1856)),
        (3, None, None),
        (4, None, None),
        (5, None, None),
        (6, by(17, 23), at(192, 448)),
        (7, None, None),
    ];
    compare(rt, &table, &wanted, steps);
    Ok(())
}

#[test]
fn a_table_follows_edits(rt: HostRuntime) -> Result<(), Fail> {
    follow_place::<Brand>(&rt, rt.alloc(), Blank::new(1))?;
    follow_remove::<Brand>(&rt, rt.alloc(), Blank::new(1))
}

#[test]
fn a_map_beyond_the_bound_is_refused(rt: HostRuntime) -> Result<(), Fail> {
    let mut page = drawn(&rt, rt.alloc())?;
    let edit = Edit::Add {
        parent: 15,
        at: 0,
        kind: Group,
        boxes: box_at(rt.alloc(), None)?,
        style: Style::new(rt.alloc()),
    };
    apply(&rt, &mut page, &edit)?;
    let mut table = SpaceTable::new(rt.alloc());
    assert_eq!(&rt; table.renew(&page, 0).err(), Some(BoundOrMemory::Bound));
    Ok(())
}
