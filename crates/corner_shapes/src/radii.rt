ghost use Rattle.std.specs.Prelude.{◌≡◌, ◌*◌, ◌^◌, ◌≤◌, unsigned_abs};
ghost use Rattle.corner_shapes.specs.Radii.{top_left, top_right, bottom_right, bottom_left, corners_of, IsLengthWithin, AreBothWithin, AreRadiiWithin};
ghost use Rattle.corner_shapes.specs.Overlap.{top_sum, right_sum, bottom_sum, left_sum, factor, used_radii_of, each, used_corners, AreApart, in_fine_units};
ghost use Rattle.corner_shapes.specs.Factor.{fraction_of};

use crate::factor::Factor;

/// The radii of a box's four corners: top left x and y, top right x and y, bottom right x and y,
/// bottom left x and y. Given radii are in units (1/64 px), used ones in fine units (1/4096 px).
#[derive(Clone, Copy, Debug, PartialEq, Eq, Hash)]
pub struct Corners {
    pub r: [i64; 8],
}

/// The two radii of one corner: across and down.
#[derive(Clone, Copy)]
pub struct Radii {
    pub x: i64,
    pub y: i64,
}

impl Corners {
    pub(crate) fn top_left(&self) -> Radii
        ensures { result ≡ top_left self.now }
    {
        Radii {
            x: self.r[0],
            y: self.r[1],
        }
    }

    pub(crate) fn top_right(&self) -> Radii
        ensures { result ≡ top_right self.now }
    {
        Radii {
            x: self.r[2],
            y: self.r[3],
        }
    }

    pub(crate) fn bottom_right(&self) -> Radii
        ensures { result ≡ bottom_right self.now }
    {
        Radii {
            x: self.r[4],
            y: self.r[5],
        }
    }

    pub(crate) fn bottom_left(&self) -> Radii
        ensures { result ≡ bottom_left self.now }
    {
        Radii {
            x: self.r[6],
            y: self.r[7],
        }
    }

    pub(crate) fn of(
        top_left: Radii,
        top_right: Radii,
        bottom_right: Radii,
        bottom_left: Radii,
    ) -> Corners
        ensures { result ≡ corners_of top_left top_right bottom_right bottom_left }
    {
        Corners {
            r: [
                top_left.x,
                top_left.y,
                top_right.x,
                top_right.y,
                bottom_right.x,
                bottom_right.y,
                bottom_left.x,
                bottom_left.y,
            ],
        }
    }

    /// The sum of the radii on the top side.
    fn top_sum(&self) -> u64
        requires { AreRadiiWithin (2 ^ 20) self.now }
        ensures sum { result ≡ top_sum self.now }
        ensures small { result ≤ 2 ^ 21 }
    {
        self.r[0].unsigned_abs() + self.r[2].unsigned_abs()
    }

    /// The sum of the radii on the right side.
    fn right_sum(&self) -> u64
        requires { AreRadiiWithin (2 ^ 20) self.now }
        ensures sum { result ≡ right_sum self.now }
        ensures small { result ≤ 2 ^ 21 }
    {
        self.r[3].unsigned_abs() + self.r[5].unsigned_abs()
    }

    /// The sum of the radii on the bottom side.
    fn bottom_sum(&self) -> u64
        requires { AreRadiiWithin (2 ^ 20) self.now }
        ensures sum { result ≡ bottom_sum self.now }
        ensures small { result ≤ 2 ^ 21 }
    {
        self.r[4].unsigned_abs() + self.r[6].unsigned_abs()
    }

    /// The sum of the radii on the left side.
    fn left_sum(&self) -> u64
        requires { AreRadiiWithin (2 ^ 20) self.now }
        ensures sum { result ≡ left_sum self.now }
        ensures small { result ≤ 2 ^ 21 }
    {
        self.r[7].unsigned_abs() + self.r[1].unsigned_abs()
    }
}

/// The factor that the radii of a box with these sides are multiplied by, all in units.
fn factor_of(width: u64, height: u64, given: &Corners) -> Factor
    requires width { width ≤ 2 ^ 27 }
    requires height { height ≤ 2 ^ 27 }
    requires radii { AreRadiiWithin (2 ^ 20) given.now }
    ensures { fraction_of result ≡ factor width height given.now }
{
    Factor::one()
        .limited(width, given.top_sum())
        .limited(height, given.right_sum())
        .limited(width, given.bottom_sum())
        .limited(height, given.left_sum())
}

/// The used radii, in fine units, of a box with the sides `w` and `h`, 0 to 2^27 units, and the given
/// radii, 0 to 2^20 units: where the curves of two corners would overlap, all radii are multiplied by one
/// factor, the least of side over sum. Each is rounded down to a fine unit.
/// CSS Backgrounds and Borders 3, "Overlapping Curves".
pub fn used_radii(w: i64, h: i64, given: &Corners) -> Corners
    requires width { IsLengthWithin (2 ^ 27) w }
    requires height { IsLengthWithin (2 ^ 27) h }
    requires radii { AreRadiiWithin (2 ^ 20) given.now }
    ensures exact { result ≡ used_corners (unsigned_abs w) (unsigned_abs h) given.now }
    ensures apart { AreApart (64 * unsigned_abs w) (64 * unsigned_abs h) result }
    ensures kept { AreApart (unsigned_abs w) (unsigned_abs h) given.now → result ≡ in_fine_units given.now }
    ensures within { AreRadiiWithin (2 ^ 26) result }
{
    reduced(factor_of(w.unsigned_abs(), h.unsigned_abs(), given), given)
}

/// The radii times the factor, in fine units, each rounded down.
fn reduced(factor: Factor, given: &Corners) -> Corners
    requires { AreRadiiWithin (2 ^ 20) given.now }
    ensures { result ≡ each (used_radii_of (fraction_of factor)) given.now }
{
    Corners::of(
        used(factor, given.top_left()),
        used(factor, given.top_right()),
        used(factor, given.bottom_right()),
        used(factor, given.bottom_left()),
    )
}

/// The radii of one corner times the factor, in fine units, each rounded down.
fn used(factor: Factor, radii: Radii) -> Radii
    requires { AreBothWithin (2 ^ 20) radii }
    ensures { result ≡ used_radii_of (fraction_of factor) radii }
{
    Radii {
        x: factor.used(radii.x),
        y: factor.used(radii.y),
    }
}
