// Which of some items are admitted at a point, by their numbers, and their elements in place of these.
ghost use Rattle.std.specs.Prelude.{◌≡◌, ◌+◌, ◌<◌, ◌≤◌, ◌++◌, ℕ, length, take, slice_get, slice_index_or};
ghost use Rattle.std.specs.List.{All, sum_by};
ghost use Rattle.box_tree.specs.Contents.{IsWithin};
ghost use Rattle.box_tree.specs.Numbers.{IsNumber};
ghost use Rattle.spaces.specs.Table.{IsTableOf};
ghost use Rattle.point_query.specs.Bound.{member_bound};
ghost use Rattle.point_query.specs.Elements.{elements_of, each_once, then_root, ends_with};
ghost use Rattle.point_query.specs.Topmost.{items_named, if_new};

use crate::admission::admitted_element;
use box_tree::Page;
use fractions::{Ledger, Steps};
use spaces::SpaceTable;

// Writes the elements of those of the first `count` items that are admitted at a point in their place, in their order and
// each once, and answers how many they are. Of the steps that each of the items may take it leaves one.
pub(crate) fn keep_admitted<L: Ledger>(
    page: &Page,
    spaces: &SpaceTable,
    room: &mut [u32],
    count: usize,
    x: i64,
    y: i64,
    steps: &mut Steps<L>,
) -> usize
    requires table { IsTableOf spaces.now page.now.contents }
    requires x { IsWithin 20 x }
    requires y { IsWithin 20 y }
    requires within { count ≤ length room.old }
    requires numbers { All (IsNumber page.now.items) (take count room.old) }
    ensures elements { take result room.new ≡ each_once (elements_of page.now.contents x y (items_named page.now.items (take count room.old))) }
    ensures cost { steps.new + count ≤ steps.old + sum_by (member_bound page.now.contents) (items_named page.now.items (take count room.old)) }
    ensures counts { steps.old ≤ steps.new }
    ensures len { length room.new ≡ length room.old }
    ensures fewer { result ≤ count }
{
    let mut kept = 0;
    for at in 0..count {
        let item = page.item(room[at], steps);
        let element = admitted_element(page, spaces, item, x, y, steps);
        kept = write_if_new(room, kept, element);
    }
    kept
}

// Writes an id behind the first `count` where there is one that isn't among these, and answers how many there are then.
fn write_if_new(ids: &mut [u32], count: usize, id: Option<u32>) -> usize
    requires { count < length ids.old }
    ensures ids { take result ids.new ≡ take count ids.old ++ if_new (take count ids.old) id }
    ensures rest { (k d : ℕ) → count < k → slice_index_or ids.new k d ≡ slice_index_or ids.old k d }
    ensures len { length ids.new ≡ length ids.old }
    ensures more { (count ≤ result) × (result ≤ count + 1) }
{
    let Some(id) = id else {
        return count;
    };
    if ids[..count].contains(&id) {
        return count;
    }
    ids[count] = id;
    count + 1
}

// The element of the first of some items that is admitted at a point. Of the steps that each of the items may take it leaves
// one.
pub(crate) fn first_admitted<L: Ledger>(
    page: &Page,
    spaces: &SpaceTable,
    numbers: &[u32],
    x: i64,
    y: i64,
    steps: &mut Steps<L>,
) -> Option<u32>
    requires table { IsTableOf spaces.now page.now.contents }
    requires x { IsWithin 20 x }
    requires y { IsWithin 20 y }
    requires numbers { All (IsNumber page.now.items) numbers.now }
    ensures first { result ≡ slice_get (elements_of page.now.contents x y (items_named page.now.items numbers.now)) 0 }
    ensures cost { steps.new + length numbers.now ≤ steps.old + sum_by (member_bound page.now.contents) (items_named page.now.items numbers.now) }
    ensures counts { steps.old ≤ steps.new }
{
    for number in numbers {
        let item = page.item(*number, steps);
        let element = admitted_element(page, spaces, item, x, y, steps);
        if element.is_some() {
            return element;
        }
    }
    None
}

// Puts the root behind the first `count` ids, unless it is the last of them, and answers how many there are then.
pub(crate) fn end_with(ids: &mut [u32], count: usize, root: u32) -> usize
    requires { count < length ids.old }
    ensures ids { take result ids.new ≡ then_root root (take count ids.old) }
    ensures len { length ids.new ≡ length ids.old }
    ensures more { result ≤ count + 1 }
{
    if is_last(&ids[..count], root) {
        return count;
    }
    ids[count] = root;
    count + 1
}

// Whether the root is the last member.
fn is_last(ids: &[u32], root: u32) -> bool
    ensures { result ≡ ends_with root ids.now }
{
    match ids.last() {
        Some(last) => *last == root,
        None => false,
    }
}
