ghost use Rattle.std.specs.Prelude.{◌≡◌, ◌↔◌, ◌+◌, ◌^◌, ◌<◌, ◌≤◌, unsigned_abs, IsTrue};
ghost use Rattle.std.specs.List.{All};
ghost use Rattle.poly_shapes.specs.Segments.{square, distance};
ghost use Rattle.image_maps.specs.Area.{IsNumber, fine, InCircle};

/// Whether the circle of the first three numbers, its centre and its radius, holds the point.
pub fn in_circle(numbers: &[i64], x: i128, y: i128) -> bool
    requires numbers { All IsNumber numbers.now }
    requires x { unsigned_abs x < 2 ^ 123 }
    requires y { unsigned_abs y < 2 ^ 123 }
    ensures { IsTrue result ↔ InCircle numbers.now x y }
{
    if numbers.len() < 3 || numbers[2] <= 0 {
        return false;
    }
    is_within_circle(
        distance(x, numbers[0]),
        distance(y, numbers[1]),
        64 * numbers[2].unsigned_abs(),
    )
}

/// How far a coordinate in fine units lies from one in units.
fn distance(at: i128, centre: i64) -> u128
    requires at { unsigned_abs at < 2 ^ 123 }
    requires centre { IsNumber centre }
    ensures { result ≡ distance at (fine centre) }
{
    (at - i128::from(64 * centre)).unsigned_abs()
}

/// Whether a circle holds a point so far from its centre: one that is further off than the radius, across or down, is not
/// tested further.
fn is_within_circle(across: u128, down: u128, radius: u64) -> bool
    requires { radius ≤ 2 ^ 26 }
    ensures { IsTrue result ↔ (square across + square down ≤ square radius) }
{
    let radius = u128::from(radius);
    if radius < across {
        return false;
    }
    if radius < down {
        return false;
    }
    across * across + down * down <= radius * radius
}
