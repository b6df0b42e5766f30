ghost use Rattle.std.specs.Prelude.{◌≡◌, ◌↔◌, ◌⊎◌, ◌+◌, ◌≤◌, false, IsNone, IsTrue, IsFalse, IfSome, [], ◌&&◌, int_le, length, take};
ghost use Rattle.std.specs.List.{sum_by};
ghost use Rattle.box_tree.specs.Contents.{IsWithin};
ghost use Rattle.box_tree.specs.Forest.{roots_of};
ghost use Rattle.box_tree.specs.Items.{item_count};
ghost use Rattle.spaces.specs.Table.{IsTableOf};
ghost use Rattle.tree_edits.specs.Cells.{IsGridOf, AreBoundsOf};
ghost use Rattle.tree_edits.specs.Faithful.{IsForestOf};
ghost use Rattle.point_query.specs.Bound.{member_bound, query_bound, query_least};
ghost use Rattle.point_query.specs.Elements.{elements_from_point, element_from_point, is_inside};
ghost use Rattle.point_query.specs.Near.{near_items};
ghost use Rattle.point_query.specs.Topmost.{AreTopmostFirst, items_named};

use crate::candidates::{candidates, keep_held};
use crate::kept::{end_with, first_admitted, keep_admitted};
use crate::topmost::order_topmost_first;
use box_tree::{Page, Viewport};
use fractions::{Ledger, Rect, Steps};
use paint_order::Forest;
use spaces::SpaceTable;
use spatial_index::Grid;
use tree_edits::Engine;

/// The elements under a point of the viewport, in units, from top to bottom (CSSOM View, `elementsFromPoint`).
///
/// Empty outside the viewport and without a root. They are written into the room, whatever that holds; it takes no memory. Inside
/// the viewport it takes at most ten steps and, for each item near the point, twelve, four for each level of the depth of its
/// node, and one for each area of the map that its node names, and at least ten and one for each of these items; outside the
/// viewport it takes none.
pub fn hit<'a, L: Ledger>(
    engine: &Engine,
    room: &'a mut [u32],
    x: i64,
    y: i64,
    steps: &mut Steps<L>,
) -> &'a [u32]
    requires x { IsWithin 26 x }
    requires y { IsWithin 26 y }
    requires room { item_count engine.now.contents.tree + 256 ≤ length room.old }
    ensures elements { result.now ≡ elements_from_point engine.now.contents x y }
    ensures most { IsTrue (is_inside engine.now.contents.viewport x y) → steps.new ≤ steps.old + query_bound engine.now.contents x y }
    ensures least { IsTrue (is_inside engine.now.contents.viewport x y) → steps.old + query_least engine.now.contents x y ≤ steps.new }
    ensures outside { IsFalse (is_inside engine.now.contents.viewport x y) → steps.new ≡ steps.old }
{
    let count = write_elements(
        engine.page(),
        engine.spaces(),
        engine.forest(),
        engine.grid(),
        engine.bounds(),
        room,
        x,
        y,
        steps,
    );
    &room[..count]
}

/// The topmost element under a point of the viewport, in units (CSSOM View, `elementFromPoint`).
///
/// None exactly outside the viewport and without a root. It works in the room, whatever that holds, and takes no memory. What is
/// said of the steps of `hit` holds of its steps.
pub fn top<L: Ledger>(
    engine: &Engine,
    room: &mut [u32],
    x: i64,
    y: i64,
    steps: &mut Steps<L>,
) -> Option<u32>
    requires x { IsWithin 26 x }
    requires y { IsWithin 26 y }
    requires room { item_count engine.now.contents.tree + 256 ≤ length room.old }
    ensures first { result ≡ element_from_point engine.now.contents x y }
    ensures none { IsNone result ↔ ((is_inside engine.now.contents.viewport x y ≡ false) ⊎ (roots_of engine.now.contents.tree ≡ [])) }
    ensures most { IsTrue (is_inside engine.now.contents.viewport x y) → steps.new ≤ steps.old + query_bound engine.now.contents x y }
    ensures least { IsTrue (is_inside engine.now.contents.viewport x y) → steps.old + query_least engine.now.contents x y ≤ steps.new }
    ensures outside { IsFalse (is_inside engine.now.contents.viewport x y) → steps.new ≡ steps.old }
{
    topmost_element(
        engine.page(),
        engine.spaces(),
        engine.forest(),
        engine.grid(),
        engine.bounds(),
        room,
        x,
        y,
        steps,
    )
}

// Writes the elements from a point, by what the engine keeps beside the page, and answers how many they are.
fn write_elements<L: Ledger>(
    page: &Page,
    spaces: &SpaceTable,
    forest: &Forest,
    grid: &Grid,
    bounds: &[Rect],
    room: &mut [u32],
    x: i64,
    y: i64,
    steps: &mut Steps<L>,
) -> usize
    requires table { IsTableOf spaces.now page.now.contents }
    requires forest { IsForestOf forest.now page.now.contents page.now.items }
    requires grid { IsGridOf grid.now page.now.contents page.now.items }
    requires bounds { AreBoundsOf bounds.now page.now.contents page.now.items }
    requires room { item_count page.now.contents.tree + 256 ≤ length room.old }
    ensures elements { take result room.new ≡ elements_from_point page.now.contents x y }
    ensures within { result ≤ length room.new }
    ensures most { IsTrue (is_inside page.now.contents.viewport x y) → steps.new ≤ steps.old + query_bound page.now.contents x y }
    ensures least { IsTrue (is_inside page.now.contents.viewport x y) → steps.old + query_least page.now.contents x y ≤ steps.new }
    ensures outside { IsFalse (is_inside page.now.contents.viewport x y) → steps.new ≡ steps.old }
{
    let Some(found) = topmost_first(page, forest, grid, bounds, room, x, y, steps) else {
        return 0;
    };
    page.validity();
    page.numbering();
    let kept = keep_admitted(page, spaces, room, found.count, x, y, steps);
    end_with(room, kept, found.root)
}

// The first of the elements from a point, by what the engine keeps beside the page.
fn topmost_element<L: Ledger>(
    page: &Page,
    spaces: &SpaceTable,
    forest: &Forest,
    grid: &Grid,
    bounds: &[Rect],
    room: &mut [u32],
    x: i64,
    y: i64,
    steps: &mut Steps<L>,
) -> Option<u32>
    requires table { IsTableOf spaces.now page.now.contents }
    requires forest { IsForestOf forest.now page.now.contents page.now.items }
    requires grid { IsGridOf grid.now page.now.contents page.now.items }
    requires bounds { AreBoundsOf bounds.now page.now.contents page.now.items }
    requires room { item_count page.now.contents.tree ≤ length room.old }
    ensures first { result ≡ element_from_point page.now.contents x y }
    ensures none { IsNone result ↔ ((is_inside page.now.contents.viewport x y ≡ false) ⊎ (roots_of page.now.contents.tree ≡ [])) }
    ensures most { IsTrue (is_inside page.now.contents.viewport x y) → steps.new ≤ steps.old + query_bound page.now.contents x y }
    ensures least { IsTrue (is_inside page.now.contents.viewport x y) → steps.old + query_least page.now.contents x y ≤ steps.new }
    ensures outside { IsFalse (is_inside page.now.contents.viewport x y) → steps.new ≡ steps.old }
{
    let found = topmost_first(page, forest, grid, bounds, room, x, y, steps)?;
    page.validity();
    page.numbering();
    let first = first_admitted(page, spaces, &room[..found.count], x, y, steps);
    Some(first.unwrap_or(found.root))
}

// The root of a page, and how many of its items have bounds that hold a point.
#[derive(Clone, Copy)]
struct Found {
    root: u32,
    count: usize,
}

// Writes the numbers of the items whose bounds hold a point of the viewport, the topmost first. None exactly outside the viewport
// and without a root. The cells of a point inside the viewport are visited also where there is no root. All these items together
// may take as many steps as those near the point but one for each of the others.
fn topmost_first<L: Ledger>(
    page: &Page,
    forest: &Forest,
    grid: &Grid,
    bounds: &[Rect],
    room: &mut [u32],
    x: i64,
    y: i64,
    steps: &mut Steps<L>,
) -> Option<Found>
    requires forest { IsForestOf forest.now page.now.contents page.now.items }
    requires grid { IsGridOf grid.now page.now.contents page.now.items }
    requires bounds { AreBoundsOf bounds.now page.now.contents page.now.items }
    requires room { item_count page.now.contents.tree ≤ length room.old }
    ensures most { IfSome result (λ found. sum_by (member_bound page.now.contents) (items_named page.now.items (take found.count room.new)) + length (near_items page.now.contents x y) ≤ sum_by (member_bound page.now.contents) (near_items page.now.contents x y) + found.count) }
    ensures found { IfSome result (λ found. AreTopmostFirst page.now.contents page.now.items x y found.root (take found.count room.new)) }
    ensures fewer { IfSome result (λ found. found.count ≤ item_count page.now.contents.tree) }
    ensures none { IsNone result ↔ ((is_inside page.now.contents.viewport x y ≡ false) ⊎ (roots_of page.now.contents.tree ≡ [])) }
    ensures len { length room.new ≡ length room.old }
    ensures inside { IsTrue (is_inside page.now.contents.viewport x y) → steps.new ≡ steps.old + query_least page.now.contents x y }
    ensures outside { IsFalse (is_inside page.now.contents.viewport x y) → steps.new ≡ steps.old }
{
    if !holds_point(&page.viewport(), x, y) {
        return None;
    }
    page.validity();
    page.numbering();
    let near = candidates(page, grid, room, x, y, steps);
    let root = page.root()?;
    let count = keep_held(bounds, &mut room[..near], x, y);
    order_topmost_first(forest, &mut room[..count]);
    Some(Found { root, count })
}

// Whether the viewport holds a point, its right and lower edges too.
fn holds_point(viewport: &Viewport, x: i64, y: i64) -> bool
    ensures { result ≡ is_inside viewport.now x y }
{
    lies_between(0, x, viewport.w) && lies_between(0, y, viewport.h)
}

// Whether a number is at least the one and at most the other.
fn lies_between(least: i64, x: i64, most: i64) -> bool
    ensures { result ≡ (int_le least x && int_le x most) }
{
    least <= x && x <= most
}

#[cfg(test)]
mod tests;
