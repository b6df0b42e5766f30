ghost use Rattle.std.specs.Prelude.{◌≡◌, ◌↔◌, ◌*◌, ◌-◌, ◌^◌, min, length, ◌≤ℤ◌, ◌<ℤ◌, IsTrue, IfOk};
ghost use Rattle.std.specs.List.{All};
ghost use Rattle.svg_shapes.specs.Measures.{IsBoxMeasured};
ghost use Rattle.svg_shapes.specs.Boxes.{InBox, InBoxes};

use crate::measures::is_box_measured;
use poly_shapes::OutOfMemory;
use std::marker::Model;

/// A box by its left top corner and its sides, in fine units: places within 2^26, sides from 0 to 2^26.
#[derive(Clone, Copy, Debug, PartialEq, Eq, Hash)]
pub struct FineBox {
    pub x: i64,
    pub y: i64,
    pub w: i64,
    pub h: i64,
}

impl FineBox {
    /// Whether the box holds a point: its left and top edges are in, its right and bottom ones aren't.
    pub(crate) fn holds(self, x: i128, y: i128) -> bool
        requires { IsBoxMeasured self }
        ensures { IsTrue result ↔ InBox x y self }
    {
        is_from(self.x, self.x + self.w, x) && is_from(self.y, self.y + self.h, y)
    }
}

/// Whether a coordinate lies between two edges, of which the first is in and the last isn't.
fn is_from(first: i64, last: i64, at: i128) -> bool
    ensures { IsTrue result ↔ (first ≤ℤ at) × (at <ℤ last) }
{
    i128::from(first) <= at && at < i128::from(last)
}

/// Boxes in their order, which clauses see as a list.
#[derive(Debug, Drop)]
pub struct FineBoxes(pub Vec<FineBox>);

impl Model for FineBoxes {
    ghost use Rattle.std.specs.Prelude.{List};
    ghost use Rattle.svg_shapes.specs.declared.boxes.FineBox.{FineBox};

    ghost Value = { List FineBox };

    ghost view = { λ boxes. boxes.0.items };
}

impl FineBoxes {
    /// The same boxes in memory of their own.
    pub fn copy(&self) -> Result<FineBoxes, OutOfMemory>
        ensures { IfOk result (λ copied. copied ≡ self.now) }
    {
        Ok(FineBoxes(self.0.clone()?))
    }

    /// Whether each box is within the limits.
    pub(crate) fn in_range(&self) -> bool
        ensures { IsTrue result ↔ All IsBoxMeasured self.now }
    {
        self.0.iter().all(|measured| is_box_measured(*measured))
    }

    /// Two for each box, but no more than 4,294,967,295.
    pub(crate) fn vertices(&self) -> u32
        ensures { result ≡ min (2 * length self.now) (2 ^ 32 - 1) }
    {
        twice_counted(self.0.len())
    }

    /// Whether some box holds a point.
    pub(crate) fn hold(&self, x: i128, y: i128) -> bool
        requires { All IsBoxMeasured self.now }
        ensures { IsTrue result ↔ InBoxes self.now x y }
    {
        any_holds(&self.0, x, y)
    }
}

fn any_holds(boxes: &[FineBox], x: i128, y: i128) -> bool
    requires { All IsBoxMeasured boxes.now }
    ensures { IsTrue result ↔ InBoxes boxes.now x y }
{
    for fine_box in boxes {
        if fine_box.holds(x, y) {
            return true;
        }
    }
    false
}

/// Twice a count, but no more than 4,294,967,295.
fn twice_counted(count: usize) -> u32
    ensures { result ≡ min (2 * count) (2 ^ 32 - 1) }
{
    if count < 1 << 31 {
        2 * count as u32
    } else {
        u32::MAX
    }
}
