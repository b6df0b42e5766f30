// The items that may be admitted at a point, by their numbers: those that stand in the cells of the point, and of these the ones
// whose bounds hold it.
ghost use Rattle.std.specs.Prelude.{◌≡◌, ◌+◌, ◌≤◌, ◌++◌, IsTrue, All, length, map, take};
ghost use Rattle.std.specs.List.{filter};
ghost use Rattle.std.specs.List.Sorted.{IsPermutation};
ghost use Rattle.box_tree.specs.Items.{item_count};
ghost use Rattle.box_tree.specs.Numbers.{IsNumber};
ghost use Rattle.stacking.specs.Lists.{number_of};
ghost use Rattle.tree_edits.specs.Cells.{IsGridOf};
ghost use Rattle.point_query.specs.Bound.{query_least};
ghost use Rattle.point_query.specs.Elements.{is_inside};
ghost use Rattle.point_query.specs.Near.{near_items, is_held};
ghost use Rattle.point_query.specs.Topmost.{StandOnce};

use box_tree::Page;
use fractions::{Ledger, Rect, Steps};
use spatial_index::Grid;

// How many levels a grid has.
const LEVELS: u8 = 10;

// Writes the numbers of the items near a point of the viewport, each once, and answers how many they are. It takes a step for
// each cell of the point and for each number.
pub(crate) fn candidates<L: Ledger>(
    page: &Page,
    grid: &Grid,
    room: &mut [u32],
    x: i64,
    y: i64,
    steps: &mut Steps<L>,
) -> usize
    requires grid { IsGridOf grid.now page.now.contents page.now.items }
    requires inside { IsTrue (is_inside page.now.contents.viewport x y) }
    requires room { item_count page.now.contents.tree ≤ length room.old }
    ensures numbers { All (IsNumber page.now.items) (take result room.new) }
    ensures once { StandOnce (take result room.new) }
    ensures near { IsPermutation (map (number_of page.now.items) (near_items page.now.contents x y)) (take result room.new) }
    ensures fewer { result ≤ item_count page.now.contents.tree }
    ensures len { length room.new ≡ length room.old }
    ensures count { result ≡ length (near_items page.now.contents x y) }
    ensures cost { steps.new ≡ steps.old + query_least page.now.contents x y }
{
    page.validity();
    page.numbering();
    let mut count = 0;
    for level in 0..LEVELS {
        count = append(room, count, grid.visit(x, y, level, steps), steps);
    }
    count
}

// Writes numbers behind the first `count`, a step for each, and answers how many there are then.
fn append<L: Ledger>(room: &mut [u32], count: usize, numbers: &[u32], steps: &mut Steps<L>) -> usize
    requires { count + length numbers.now ≤ length room.old }
    ensures numbers { take result room.new ≡ take count room.old ++ numbers.now }
    ensures more { result ≡ count + length numbers.now }
    ensures len { length room.new ≡ length room.old }
    ensures cost { steps.new ≡ steps.old + length numbers.now }
{
    let mut end = count;
    for number in numbers {
        room[end] = *number;
        end += 1;
        steps.tick();
    }
    end
}

// Keeps those of some numbers whose bounds hold a point at the front, in their order, and answers how many they are.
pub(crate) fn keep_held(bounds: &[Rect], numbers: &mut [u32], x: i64, y: i64) -> usize
    ensures held { take result numbers.new ≡ filter (is_held bounds.now x y) numbers.old }
    ensures fewer { result ≤ length numbers.old }
    ensures len { length numbers.new ≡ length numbers.old }
{
    let mut kept = 0;
    for at in 0..numbers.len() {
        let number = numbers[at];
        if is_held(bounds, number, x, y) {
            numbers[kept] = number;
            kept += 1;
        }
    }
    kept
}

// Whether the bounds under a number hold a point.
fn is_held(bounds: &[Rect], number: u32, x: i64, y: i64) -> bool
    ensures { result ≡ is_held bounds.now x y number }
{
    match bounds.get(number as usize) {
        Some(rect) => rect.holds(i128::from(x), i128::from(y)),
        None => false,
    }
}
