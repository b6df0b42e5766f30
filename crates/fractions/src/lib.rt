// What everything above counts with: exact fractions, quotients rounded down and up, rectangles and spots in whole
// units, and the counter of steps.
//
// It promises that each answer is exact. A fraction is in lowest terms over a positive denominator; sum, product and
// order are those of the numbers; a floor and a ceiling are told by their two inequalities, for divisors of either
// sign. A rectangle holds its left and top edges and not its right and bottom ones, and the part that two rectangles
// share holds the points that both hold. A tick adds one to the count of steps. How large the numbers may be is
// required of the caller, and within that no intermediate leaves 128 bits.
// It stands on the lemmas of whole_numbers, and on std.
//
// How a function counts its steps. It takes the counter last, and says by a clause of its own what it may add to it:
//
//     pub fn first_at<L: Ledger>(boxes: &[Rect], at: Spot, steps: &mut Steps<L>) -> Option<usize>
//         ensures cost { steps.new ≤ steps.old + length boxes.now }
//
// Where it ticks in a loop, the loop's invariant says how far the count has come: `l.steps ≡ l.initial.steps + l.i`.
//
// A function that has no counter, and calls one that counts, makes a counter for itself. It is split in two. The one
// takes a blank ledger, repeats the three conditions of `Steps::new`, and makes the counter:
//
//     fn first_with<L: Ledger>(boxes: &[Rect], at: Spot, blank: Blank) -> Option<usize>
//         requires name { blank.name ≡ L.name }
//         requires parts { blank.parts ≡ L.parts }
//         requires some_parts { 0 < blank.parts }
//     {
//         first_at(boxes, at, &mut Steps::<L>::new(blank))
//     }
//
// The other is what callers see. It calls the first with a blank of one part, under `Brand`, the ledger of which
// nothing is known:
//
//     pub fn first(boxes: &[Rect], at: Spot) -> Option<usize> {
//         first_with::<Brand>(boxes, at, Blank::new(1))
//     }
//
// Which ledger that is, the file proofs/first/Invariants.antt says in three lines (with `g a` in place of `a` where the
// function itself has bounds, as `main` and a test that take the runtime have):
//
//     use Rattle.NAME_OF_THE_CRATE.proofs.first.Given as goal
//
//     abbrev pub ghosts-first_with : goal.ghosts-first_with
//     ghosts-first_with a = record { name = a.blank.name; parts = a.blank.parts }
//
// The three stand in src/steps/tests.rt as code that is proved.
#![tactic(auto)]

mod division;
mod frac;
mod rect;
mod steps;

pub use division::{ceil_div, floor_div, gcd};
pub use frac::Frac;
pub use rect::{Rect, Spot};
pub use steps::{Blank, Brand, Ledger, Steps};
