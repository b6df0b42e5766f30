ghost use Rattle.std.specs.Prelude.{◌≡◌, ◌+◌, ◌<◌, ◌≤◌, length};

use super::*;
use crate::{Rect, Spot};

// The first rectangle that holds the spot. A step is the test of one rectangle.
fn first_at<L: Ledger>(boxes: &[Rect], at: Spot, steps: &mut Steps<L>) -> Option<usize>
    ensures cost { steps.new ≤ steps.old + length boxes.now }
{
    for (i, rect) in boxes.iter().enumerate() {
        steps.tick();
        if rect.holds(i128::from(at.x), i128::from(at.y)) {
            return Some(i);
        }
    }
    None
}

fn first_with<L: Ledger>(boxes: &[Rect], at: Spot, blank: Blank) -> Option<usize>
    requires name { blank.name ≡ L.name }
    requires parts { blank.parts ≡ L.parts }
    requires some_parts { 0 < blank.parts }
{
    first_at(boxes, at, &mut Steps::<L>::new(blank))
}

fn first(boxes: &[Rect], at: Spot) -> Option<usize> {
    first_with::<Brand>(boxes, at, Blank::new(1))
}

#[test]
fn a_function_makes_its_own_counter(rt: HostRuntime) {
    let boxes = [
        Rect {
            l: 0,
            t: 0,
            r: 2,
            b: 2,
        },
        Rect {
            l: 2,
            t: 0,
            r: 4,
            b: 2,
        },
    ];
    assert_eq!(rt; first(&boxes, Spot { x: 1, y: 1 }), Some(0));
    assert_eq!(rt; first(&boxes, Spot { x: 2, y: 1 }), Some(1));
    assert_eq!(rt; first(&boxes, Spot { x: 2, y: 2 }), None);
}
