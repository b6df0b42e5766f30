// Clips of pages that were worked out by hand.
ghost use Rattle.std.specs.Prelude.{◌≡◌, ◌<◌, IsTrue, IfOk};
ghost use Rattle.box_tree.specs.Contents.{has_id};
ghost use Rattle.box_tree.specs.Kept.{label_of};
ghost use Rattle.spaces.specs.Table.{IsTableOf};
ghost use Rattle.scroll_clip.specs.Curves.{HasCurvesInRange};

use crate::{border_curve, clip_rounded, inside_clips, padding_curve};
use box_tree::{Edit, Kind, Node, Page, Piece, PieceList};
use computed_style::{Function, Functions, Overflow, Position, Style};
use corner_shapes::{Corners, Rounded};
use fractions::{Blank, Brand, Ledger, Steps};
use spaces::SpaceTable;
use std::alloc::Global;
use std::process::Abort;
use std::test::Fail;

type Sides = (i64, i64, i64, i64);

// Adds a node as the first child of its parent, with boxes by l, t, w and h.
fn add(
    rt: &impl Abort,
    alloc: Global,
    page: &mut Page,
    parent: u32,
    kind: Kind,
    style: Style,
    sides: &[Sides],
) -> Result<(), Fail> {
    let mut pieces = Vec::new(alloc);
    for &(l, t, w, h) in sides {
        pieces.push(Piece {
            line: 0,
            l,
            t,
            w,
            h,
        })?;
    }
    let edit = Edit::Add {
        parent,
        at: 0,
        kind,
        boxes: PieceList(pieces),
        style,
    };
    assert!(rt; edit.in_range());
    let prepared = page.check(&edit)?;
    let undo = page.commit(prepared);
    page.settle(undo);
    Ok(())
}

// A style that may clip, with a position and functions of a transform around an origin.
fn style_of(
    alloc: Global,
    overflow: Option<Overflow>,
    position: Position,
    functions: &[Function],
    origin: Option<(i64, i64)>,
) -> Result<Style, Fail> {
    let mut style = Style::new(alloc);
    style.overflow = overflow;
    style.position = position;
    let mut list = Vec::new(alloc);
    list.extend_from_slice(functions)?;
    style.transform = Functions(list);
    style.origin = origin;
    Ok(style)
}

// A root; 2 clips, and so do 3 in it, which is twice as large, 4 in 3, which is turned, and 7 in 2; 8 is absolute in 7,
// 6 is fixed in 2, and 10 has a singular space.
fn nested(rt: &impl Abort, alloc: Global) -> Result<Page, Fail> {
    let clip = Some(Overflow::Clip);
    let auto = Some(Overflow::Auto);
    let twice = Function::Scale { x: 2, y: 2, q: 1 };
    let turn = Function::Quarter { turns: 1 };
    let flat = Function::Scale { x: 0, y: 1, q: 1 };
    let mut page = Page::new(alloc, 81_920, 46_080);
    for (parent, overflow, position, functions, origin, sides) in [
        (
            0,
            clip,
            Position::Static,
            [].as_slice(),
            None,
            [(0, 0, 1000, 1000)].as_slice(),
        ),
        (
            1,
            clip,
            Position::Relative,
            [].as_slice(),
            None,
            [(100, 100, 200, 150)].as_slice(),
        ),
        (
            2,
            auto,
            Position::Static,
            [twice].as_slice(),
            Some((0, 0)),
            [(0, 0, 80, 100)].as_slice(),
        ),
        (
            3,
            clip,
            Position::Static,
            [turn].as_slice(),
            Some((0, 40)),
            [(0, -40, 60, 40)].as_slice(),
        ),
        (
            4,
            None,
            Position::Static,
            [].as_slice(),
            None,
            [].as_slice(),
        ),
        (2, None, Position::Fixed, [].as_slice(), None, [].as_slice()),
        (
            2,
            clip,
            Position::Static,
            [].as_slice(),
            None,
            [(100, 100, 10, 10)].as_slice(),
        ),
        (
            7,
            None,
            Position::Absolute,
            [].as_slice(),
            None,
            [].as_slice(),
        ),
        (
            7,
            None,
            Position::Static,
            [].as_slice(),
            None,
            [].as_slice(),
        ),
        (
            1,
            clip,
            Position::Static,
            [flat].as_slice(),
            None,
            [(0, 0, 50, 50)].as_slice(),
        ),
        (
            10,
            None,
            Position::Static,
            [].as_slice(),
            None,
            [].as_slice(),
        ),
    ] {
        let style = style_of(alloc, overflow, position, functions, origin)?;
        add(rt, alloc, &mut page, parent, Kind::Block, style, sides)?;
    }
    Ok(page)
}

// The table of a page.
fn table_of<L: Ledger>(alloc: Global, page: &Page, steps: &mut Steps<L>) -> Result<SpaceTable, Fail>
    ensures { IfOk result (λ table. IsTableOf table page.now.contents) }
{
    let mut table = SpaceTable::new(alloc);
    let change = table.renew(page, 0)?;
    table.apply(change, &[], steps);
    Ok(table)
}

// Compares whether points lie inside the clips of nodes.
fn compare<L: Ledger>(
    rt: &impl Abort,
    alloc: Global,
    page: &Page,
    points: &[(u32, i64, i64, bool)],
    blank: Blank,
) -> Result<(), Fail>
    requires name { blank.name ≡ L.name }
    requires parts { blank.parts ≡ L.parts }
    requires some_parts { 0 < blank.parts }
{
    let steps = &mut Steps::<L>::new(blank);
    let table = table_of(alloc, page, steps)?;
    for &(id, x, y, inside) in points {
        assert!(rt; page.has(id));
        assert!(rt; -100_000 < x && x < 100_000 && -100_000 < y && y < 100_000);
        let told = inside_clips(page, &table, id, x, y, steps);
        assert_eq!(rt; told, inside, "{id} {x} {y}");
    }
    Ok(())
}

#[test]
fn the_clips_of_containing_blocks_alone_cut_off(rt: HostRuntime) -> Result<(), Fail> {
    let page = nested(&rt, rt.alloc())?;
    let points = [
        // the root doesn't clip, and no node is cut off by its own clip
        (1, 0, 0, true),
        (2, 1001, -1, true),
        // the clip of 2
        (3, 100, 100, true),
        (3, 99, 100, false),
        (3, 299, 249, true),
        (3, 300, 249, false),
        (3, 299, 250, false),
        // that of 3 too, whose units are twice as large
        (4, 259, 249, true),
        (4, 260, 200, false),
        (4, 259, 250, false),
        // that of 4 too, which is turned: its top edge is on the right, and its bottom edge on the left
        (5, 101, 100, true),
        (5, 100, 100, false),
        (5, 180, 219, true),
        (5, 181, 219, false),
        (5, 180, 220, false),
        // the viewport holds a fixed node
        (6, 0, 0, true),
        // 2 holds 7 and what is absolute in it, and 7 holds only what is static in it
        (7, 299, 249, true),
        (7, 300, 249, false),
        (8, 299, 249, true),
        (8, 300, 249, false),
        (9, 200, 200, true),
        (9, 209, 209, true),
        (9, 210, 209, false),
        (9, 299, 249, false),
        // a clip whose space is singular holds nothing
        (10, 5, 5, true),
        (11, 5, 5, false),
    ];
    compare::<Brand>(&rt, rt.alloc(), &page, &points, Blank::new(1))
}

// A rounded box with equal radii at all corners.
fn rounded(l: i64, t: i64, r: i64, b: i64, radius: i64) -> Rounded {
    Rounded {
        l,
        t,
        r,
        b,
        corners: Corners { r: [radius; 8] },
    }
}

// Nodes with borders and radii in a root: 2 is a block that clips, 3 an inline that floats and 4 one that doesn't, each of
// two boxes, and 5 an image.
fn bordered(rt: &impl Abort, alloc: Global) -> Result<Page, Fail> {
    let mut page = Page::new(alloc, 81_920, 46_080);
    let lines = [(0, 0, 100, 50), (0, 50, 30, 50)];
    for (parent, kind, floats, border, radius, sides) in [
        (
            0,
            Kind::Block,
            false,
            0,
            20,
            [(0, 0, 12_800, 12_800)].as_slice(),
        ),
        (
            1,
            Kind::Block,
            false,
            640,
            639_936,
            [(0, 0, 6400, 2560)].as_slice(),
        ),
        (1, Kind::Inline, true, 1, 10, lines.as_slice()),
        (1, Kind::Inline, false, 1, 10, lines.as_slice()),
        (1, Kind::Image, false, 3, 2, [(-10, 0, 5, 7)].as_slice()),
        (1, Kind::Block, false, 1, 1, [].as_slice()),
    ] {
        let mut style = Style::new(alloc);
        style.overflow = Some(Overflow::Auto);
        style.floats = floats;
        style.border = [border; 4];
        style.radii = [radius; 8];
        add(rt, alloc, &mut page, parent, kind, style, sides)?;
    }
    Ok(page)
}

// The border curve and the padding curve of the first box of the node of an id.
fn curves_of<L: Ledger>(page: &Page, id: u32, steps: &mut Steps<L>) -> Option<(Rounded, Rounded)>
    requires { IsTrue (has_id page.now.contents id) }
{
    page.validity();
    first_curves(page.node(id, steps))
}

// The same of a node.
fn first_curves(node: &Node) -> Option<(Rounded, Rounded)>
    requires { HasCurvesInRange (label_of node.now) }
{
    match node.boxes.as_slice().first() {
        Some(piece) => Some((border_curve(node, piece), padding_curve(node, piece))),
        None => None,
    }
}

// Compares the curves of nodes, and their clips.
fn compare_curves<L: Ledger>(
    rt: &impl Abort,
    page: &Page,
    curves: &[(u32, Option<(Rounded, Rounded)>, Option<Rounded>)],
    blank: Blank,
)
    requires name { blank.name ≡ L.name }
    requires parts { blank.parts ≡ L.parts }
    requires some_parts { 0 < blank.parts }
{
    let mut steps = Steps::<L>::new(blank);
    for (id, curves, clip) in curves {
        assert!(rt; page.has(*id));
        assert_eq!(rt; curves_of(page, *id, &mut steps), *curves, "{id}");
        assert_eq!(rt; clip_rounded(page, *id), *clip, "{id}");
    }
}

#[test]
fn a_clip_is_the_padding_curve_of_the_first_box(rt: HostRuntime) -> Result<(), Fail> {
    let page = bordered(&rt, rt.alloc())?;
    // the radii of 2 are as large as they may be, so that half of its height, 1280 units, is left of each
    let block = (
        rounded(0, 0, 409_600, 163_840, 81_920),
        rounded(40_960, 40_960, 368_640, 122_880, 40_960),
    );
    let line = (rounded(0, 0, 6400, 3200, 0), rounded(64, 64, 6336, 3136, 0));
    // the borders of 5 are thicker than half of its width, and its radii end in them
    let image = (
        rounded(-640, 0, -320, 448, 128),
        rounded(-448, 192, -512, 256, 0),
    );
    let root = rounded(0, 0, 819_200, 819_200, 1280);
    let curves = [
        (1, Some((root, root)), None),
        (2, Some(block), Some(block.1)),
        (3, Some(line), Some(line.1)),
        (4, Some(line), None),
        (5, Some(image), None),
        (6, None, None),
    ];
    compare_curves::<Brand>(&rt, &page, &curves, Blank::new(1));
    Ok(())
}
