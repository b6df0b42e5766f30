// Laws of the definitions, each the contract of a function without a body.
ghost use Rattle.std.specs.Prelude.{◌≡◌, ◌↔◌, ℕ, ℤ, ◌<ℤ◌, neg_ℤ, List, reverse, IsTrue, IfSome, IsSomeAnd};
ghost use Rattle.std.specs.List.{All};
ghost use Rattle.poly_shapes.specs.declared.point.Point.{Point};
ghost use Rattle.poly_shapes.specs.declared.point.Cap.{Cap};
ghost use Rattle.poly_shapes.specs.declared.point.FillRule.{FillRule};
ghost use Rattle.poly_shapes.specs.declared.point.FillRule.TheVariants.{NonZero};
ghost use Rattle.poly_shapes.specs.Segments.{ring};
ghost use Rattle.poly_shapes.specs.Outline.{Outline, edges};
ghost use Rattle.poly_shapes.specs.Fill.{winding, crossings, Fills};
ghost use Rattle.poly_shapes.specs.Stroke.{strokes};
ghost use Rattle.poly_shapes.specs.Extent.{bounds_of, Holds, moved_out, AreSidesWithin, IsPointWithin};
ghost use Rattle.poly_shapes.specs.Rectangle.{rectangle, IsInRectangle};

/// The nonzero fill of a rectangle, given by its corners one after another, is the rectangle with its left and top edges
/// and without its right and bottom ones.
pub fn rectangles_fill_themselves()
    ensures { (l t r b x y : ℤ) → l <ℤ r → t <ℤ b → Fills NonZero (edges (rectangle l t r b)) x y ↔ IsInRectangle l t r b x y }
{}

/// A subpath that is turned round has the negative winding.
pub fn turning_negates_the_winding()
    ensures { (points : List Point) (x y : ℤ) → winding (ring (reverse points)) x y ≡ neg_ℤ (winding (ring points) x y) }
{}

/// A subpath that is turned round has the same crossings.
pub fn turning_keeps_the_crossings()
    ensures { (points : List Point) (x y : ℤ) → crossings (ring (reverse points)) x y ≡ crossings (ring points) x y }
{}

/// What the fill by a rule holds, near or far, lies within the bounds.
pub fn no_fill_reaches_out_of_the_bounds()
    ensures { (rule : FillRule) (outline : Outline) (x y : ℤ) → Fills rule (edges outline) x y → IsSomeAnd (bounds_of outline.points) (λ b. Holds b x y) }
{}

/// What the stroke of a width holds, near or far, lies within the bounds, moved out by the width.
pub fn no_stroke_reaches_out_of_the_moved_bounds()
    ensures { (outline : Outline) (width : ℕ) (cap : Cap) (x y : ℤ) → IsTrue (strokes outline width cap x y) → IsSomeAnd (bounds_of outline.points) (λ b. Holds (moved_out width b) x y) }
{}

/// The bounds of points hold each of them.
pub fn bounds_hold_their_points()
    ensures { (points : List Point) → IfSome (bounds_of points) (λ b. All (λ p. Holds b p.x p.y) points) }
{}

/// The bounds of points within a distance of 0, either way, lie within it too.
pub fn bounds_of_near_points_are_near()
    ensures { (limit : ℕ) (points : List Point) → All (IsPointWithin limit) points → IfSome (bounds_of points) (AreSidesWithin limit) }
{}
