ghost use Rattle.std.specs.Prelude.{◌≡◌, ℕ, ◌+◌, ◌-◌, ◌*◌, ◌≤◌, ◌<◌, ◌^◌, ℤ, pos, ◌≤ℤ◌, ◌<ℤ◌, ◌+ℤ◌, ◌-ℤ◌, take, drop, replicate, length, slice_index, IsTrue, false};
ghost use Rattle.fractions.specs.Rect.{IsEmpty};
ghost use Rattle.spatial_index.specs.Cells.{Region, side, line_of, line_count, is_large_enough, level_of, numbers_of, cells_met, highest_of, largest, IsInside, IsEmptyOrInside, IsSide};

use fractions::Rect;

/// The cells that bounds meet, in one level: their numbers stand in rising order in the first `count` places of
/// `cells`, and the other places hold 0.
#[derive(Clone, Copy, Debug, PartialEq, Eq)]
pub struct Cells {
    pub level: u8,
    pub cells: [u32; 4],
    pub count: u8,
}

// How many levels there are above level 0.
const TOP_LEVEL: u8 = 9;

// The side of the cells of a level, in units.
fn side(level: u8) -> u32
    requires { level ≤ 9 }
    ensures { result ≡ side level }
{
    1 << (12 + level)
}

// The column of cells that an x lies in, or the row that a y lies in.
pub(crate) fn line_of(level: u8, x: i64) -> u32
    requires level { level ≤ 9 }
    requires least { pos 0 ≤ℤ x }
    requires greatest { x ≤ℤ pos (2 ^ 20) }
    ensures line { result ≡ line_of level x }
    ensures small { result ≤ 256 }
{
    x as u32 / side(level)
}

// Whether the side of the level's cells is at least the width and the height of bounds.
fn is_large_enough(level: u8, bounds: &Rect) -> bool
    requires level { level ≤ 9 }
    requires inside { IsInside largest bounds.now }
    requires across { bounds.now.l <ℤ bounds.now.r }
    requires down { bounds.now.t <ℤ bounds.now.b }
    ensures { result ≡ is_large_enough bounds.now level }
{
    let side = i64::from(side(level));
    bounds.r - bounds.l <= side && bounds.b - bounds.t <= side
}

// The level of bounds that aren't empty.
fn level_of(bounds: &Rect) -> u8
    requires inside { IsInside largest bounds.now }
    requires across { bounds.now.l <ℤ bounds.now.r }
    requires down { bounds.now.t <ℤ bounds.now.b }
    ensures level { result ≡ level_of bounds.now }
    ensures top_level { result ≤ 9 }
{
    for level in 0..TOP_LEVEL {
        if is_large_enough(level, bounds) {
            return level;
        }
    }
    TOP_LEVEL
}

// The cells of a level in the rows from `top` to `bottom`, of so many cells each, and the columns from `left` to
// `right`: at most two of each.
fn block(level: u8, columns: u32, left: u32, right: u32, top: u32, bottom: u32) -> Cells
    requires right { (left ≤ right) × (right ≤ left + 1) }
    requires bottom { (top ≤ bottom) × (bottom ≤ top + 1) }
    requires columns { (right < columns) × (columns ≤ 257) }
    requires rows { bottom ≤ 256 }
    ensures level { result.level ≡ level }
    ensures count { result.count ≤ 4 }
    ensures numbers { take result.count result.cells ≡ numbers_of columns left right top bottom }
    ensures rest { drop result.count result.cells ≡ replicate (4 - result.count) 0 }
    ensures rising { (i : ℕ) → i + 1 < result.count → slice_index result.cells i < slice_index result.cells (i + 1) }
{
    let first = top * columns + left;
    let below = bottom * columns + left;
    let (cells, count) = match (left == right, top == bottom) {
        (true, true) => ([first, 0, 0, 0], 1),
        (false, true) => ([first, first + 1, 0, 0], 2),
        (true, false) => ([first, below, 0, 0], 2),
        (false, false) => ([first, first + 1, below, below + 1], 4),
    };
    Cells {
        level,
        cells,
        count,
    }
}

// The cells that bounds meet in a region of this width.
pub(crate) fn cells_met(width: i64, bounds: &Rect) -> Cells
    requires width { IsSide width }
    requires inside { IsEmptyOrInside (highest_of width) bounds.now }
    ensures level { result.level ≡ level_of bounds.now }
    ensures top_level { result.level ≤ 9 }
    ensures count { result.count ≤ 4 }
    ensures numbers { take result.count result.cells ≡ cells_met width bounds.now }
    ensures rest { drop result.count result.cells ≡ replicate (4 - result.count) 0 }
    ensures rising { (i : ℕ) → i + 1 < result.count → slice_index result.cells i < slice_index result.cells (i + 1) }
    ensures none { IsEmpty bounds.now → result.count ≡ 0 }
{
    if bounds.is_empty() {
        Cells {
            level: 0,
            cells: [0; 4],
            count: 0,
        }
    } else {
        some_cells_met(width, bounds)
    }
}

// The same of bounds that aren't empty.
fn some_cells_met(width: i64, bounds: &Rect) -> Cells
    requires width { IsSide width }
    requires inside { IsInside (highest_of width) bounds.now }
    requires across { bounds.now.l <ℤ bounds.now.r }
    requires down { bounds.now.t <ℤ bounds.now.b }
    ensures level { result.level ≡ level_of bounds.now }
    ensures top_level { result.level ≤ 9 }
    ensures count { result.count ≤ 4 }
    ensures numbers { take result.count result.cells ≡ cells_met width bounds.now }
    ensures rest { drop result.count result.cells ≡ replicate (4 - result.count) 0 }
    ensures rising { (i : ℕ) → i + 1 < result.count → slice_index result.cells i < slice_index result.cells (i + 1) }
{
    let level = level_of(bounds);
    let columns = line_of(level, width) + 1;
    let left = line_of(level, bounds.l);
    let right = line_of(level, bounds.r - 1);
    let top = line_of(level, bounds.t);
    let bottom = line_of(level, bounds.b - 1);
    block(level, columns, left, right, top, bottom)
}
