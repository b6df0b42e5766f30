// The order of items by their numbers, topmost first, in place.
ghost use Rattle.std.specs.Prelude.{◌≡◌, ◌<◌};
ghost use Rattle.std.specs.List.Sorted.{IsPermutation, IsSortedBy};
ghost use Rattle.std.specs.Ordering.{is_lt};
ghost use Rattle.point_query.specs.Topmost.{lies_above, painted, IsOrdered};

use fractions::{Blank, Brand, Ledger, Steps};
use paint_order::Forest;
use std::cmp::Ordering;

// Orders the numbers of items, the topmost first.
pub(crate) fn order_topmost_first(forest: &Forest, numbers: &mut [u32])
    requires { IsOrdered forest.now }
    ensures permutation { IsPermutation numbers.old numbers.new }
    ensures sorted { IsSortedBy (lies_above (painted forest.now)) numbers.new }
{
    numbers.sort_unstable_by(
        |number: &u32, other: &u32| -> Ordering
            requires { IsOrdered forest.now }
            ensures { is_lt result ≡ lies_above (painted forest.entry.now) number.now other.now }
        { compare(forest, *number, *other) },
    );
}

// How the numbers of two items compare where the upper one comes first. One that isn't painted comes before all that are.
fn compare(forest: &Forest, number: u32, other: u32) -> Ordering
    requires { IsOrdered forest.now }
    ensures { is_lt result ≡ lies_above (painted forest.now) number other }
{
    if number == other {
        Ordering::Equal
    } else if is_above_with::<Brand>(forest, number, other, Blank::new(1)) {
        Ordering::Less
    } else {
        Ordering::Greater
    }
}

// Whether the number of an item comes before another in that order, with the ledger for the counter of steps.
fn is_above_with<L: Ledger>(forest: &Forest, number: u32, other: u32, blank: Blank) -> bool
    requires ordered { IsOrdered forest.now }
    requires name { blank.name ≡ L.name }
    requires parts { blank.parts ≡ L.parts }
    requires some_parts { 0 < blank.parts }
    ensures { result ≡ lies_above (painted forest.now) number other }
{
    let mut steps = Steps::<L>::new(blank);
    if !forest.stands(other, &mut steps) {
        return false;
    }
    if !forest.stands(number, &mut steps) {
        return true;
    }
    forest.before(other, number, &mut steps)
}
