ghost use Rattle.std.specs.Prelude.{◌↔◌, ◌^◌, ◌≤◌, IsTrue};
ghost use Rattle.corner_shapes.specs.Curve.{IsWithinEllipse};

/// Whether an ellipse with these radii, at most 2^28 in any unit, holds a point so far from its centre, across and down,
/// and no further off than a radius. Its curve is in. CSS Backgrounds and Borders 3, "Corner Shaping".
pub fn is_within_ellipse(dx: u128, dy: u128, x_radius: u64, y_radius: u64) -> bool
    requires x_radius { x_radius ≤ 2 ^ 28 }
    requires y_radius { y_radius ≤ 2 ^ 28 }
    requires across { dx ≤ x_radius }
    requires down { dy ≤ y_radius }
    ensures { IsTrue result ↔ IsWithinEllipse dx dy x_radius y_radius }
{
    let (x_radius, y_radius) = (u128::from(x_radius), u128::from(y_radius));
    let (across, down, whole) = (dx * y_radius, dy * x_radius, x_radius * y_radius);
    across * across + down * down <= whole * whole
}
