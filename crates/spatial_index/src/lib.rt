// A grid over a region of the plane: it keeps items by rectangles, and tells which of them may hold a point.
//
// The region is cut into square cells, in ten levels, those of each level twice as long as those of the one before. An
// item stands in the cells that its bounds meet, at the least level whose cells are as large as they are: so in four
// at most, however large it is. Whoever looks for what lies at a point visits the cell of the point in each level.
//
// It promises that each item stands once in each cell that its bounds meet, and in no other, whatever was put in,
// moved and taken out. A change is prepared by `reserve`, which alone may want memory, and leaves the cells as they
// are; `apply` then can't fail. A visit and a change each count one step.
//
// It stands on `fractions`, for rectangles and the counter of steps, and on std.
//
//     let mut grid = Grid::new(alloc, 81920, 46080)?;
//     let change = Change { item: 7, old: NOWHERE, new: Rect { l: 0, t: 0, r: 5000, b: 4000 } };
//     grid.reserve(&[change])?;
//     grid.apply(&[change], steps);
//     grid.visit(4999, 10, 1, steps)     // lends the items of that cell: 7
//
// Here `NOWHERE` is any empty rectangle.
#![tactic(auto)]

mod cell;
mod change;
mod grid;
pub mod laws;
mod level;
mod memory;
mod places;
mod plan;

pub use change::Change;
pub use grid::Grid;
pub use memory::OutOfMemory;
pub use plan::Cells;
