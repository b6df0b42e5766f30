//! What holds of the definitions.

ghost use Rattle.std.specs.Prelude.{pos, ◌≤ℤ◌};
ghost use Rattle.fractions.specs.declared.rect.Rect.{Rect};
ghost use Rattle.spatial_index.specs.Cells.{AreCellsOfPoints};

/// Bounds meet just the cells of their level in which some point lies that they hold. So whoever visits the cell of a
/// point in each level meets every item whose bounds hold the point.
pub fn cells_met_hold_points()
    ensures { (bounds : Rect) → pos 0 ≤ℤ bounds.l → pos 0 ≤ℤ bounds.t → AreCellsOfPoints bounds }
{}
