ghost use Rattle.std.specs.Prelude.{◌≡◌, ◌↔◌, ◌^◌, ◌<◌, ◌≤◌, unsigned_abs, IsTrue};
ghost use Rattle.corner_shapes.specs.Curve.{distance, IsWithinEllipse};
ghost use Rattle.svg_shapes.specs.Measures.{twice, IsPlace, IsLength};
ghost use Rattle.svg_shapes.specs.Ellipses.{IsEllipseWithin, ellipse_of, grown_ellipse, shrunk_ellipse, InEllipse, OnEllipse};

use corner_shapes::is_within_ellipse;

/// An ellipse by its centre and its radii, in half fine units. One whose radii aren't both positive holds nothing.
#[derive(Clone, Copy)]
pub struct Ellipse {
    pub cx: i64,
    pub cy: i64,
    pub rx: i64,
    pub ry: i64,
}

impl Ellipse {
    /// The ellipse with a centre and radii in fine units.
    pub fn of(cx: i64, cy: i64, rx: i64, ry: i64) -> Ellipse
        requires cx { IsPlace cx }
        requires cy { IsPlace cy }
        requires rx { IsLength rx }
        requires ry { IsLength ry }
        ensures value { result ≡ ellipse_of cx cy rx ry }
        ensures within { IsEllipseWithin (2 ^ 27) result }
    {
        Ellipse {
            cx: 2 * cx,
            cy: 2 * cy,
            rx: 2 * rx,
            ry: 2 * ry,
        }
    }

    fn grown(self, width: i64) -> Ellipse
        requires ellipse { IsEllipseWithin (2 ^ 27) self }
        requires width { IsLength width }
        ensures value { result ≡ grown_ellipse (unsigned_abs width) self }
        ensures within { IsEllipseWithin (2 ^ 28) result }
    {
        Ellipse {
            rx: self.rx + width,
            ry: self.ry + width,
            ..self
        }
    }

    fn shrunk(self, width: i64) -> Ellipse
        requires ellipse { IsEllipseWithin (2 ^ 27) self }
        requires width { IsLength width }
        ensures value { result ≡ shrunk_ellipse (unsigned_abs width) self }
        ensures within { IsEllipseWithin (2 ^ 28) result }
    {
        Ellipse {
            rx: self.rx - width,
            ry: self.ry - width,
            ..self
        }
    }

    /// Whether the ellipse holds a point, which is given in fine units.
    pub fn holds(self, x: i128, y: i128) -> bool
        requires ellipse { IsEllipseWithin (2 ^ 28) self }
        requires x { unsigned_abs x < 2 ^ 123 }
        requires y { unsigned_abs y < 2 ^ 123 }
        ensures { IsTrue result ↔ InEllipse self x y }
    {
        if self.rx <= 0 || self.ry <= 0 {
            return false;
        }
        reaches(
            distance(x, self.cx),
            distance(y, self.cy),
            self.rx.unsigned_abs(),
            self.ry.unsigned_abs(),
        )
    }

    /// Whether the band of a stroke round the ellipse holds a point, which is given in fine units: the ellipse grown by
    /// half the width does, the one shrunk by it doesn't.
    pub fn has_in_band(self, width: i64, x: i128, y: i128) -> bool
        requires ellipse { IsEllipseWithin (2 ^ 27) self }
        requires width { IsLength width }
        requires x { unsigned_abs x < 2 ^ 123 }
        requires y { unsigned_abs y < 2 ^ 123 }
        ensures { IsTrue result ↔ OnEllipse self (unsigned_abs width) x y }
    {
        if self.rx <= 0 || self.ry <= 0 || width == 0 {
            return false;
        }
        self.grown(width).holds(x, y) && !self.shrunk(width).holds(x, y)
    }
}

/// How far a coordinate in fine units lies from one in half fine units, in half fine units.
fn distance(at: i128, centre: i64) -> u128
    requires at { unsigned_abs at < 2 ^ 123 }
    requires centre { unsigned_abs centre ≤ 2 ^ 28 }
    ensures { result ≡ distance (twice at) centre }
{
    (2 * at - i128::from(centre)).unsigned_abs()
}

/// Whether an ellipse with these radii holds a point so far from its centre: one that is further off than a radius,
/// across or down, is not tested further.
fn reaches(across: u128, down: u128, rx: u64, ry: u64) -> bool
    requires rx_above { 0 < rx }
    requires ry_above { 0 < ry }
    requires rx_below { rx ≤ 2 ^ 28 }
    requires ry_below { ry ≤ 2 ^ 28 }
    ensures { IsTrue result ↔ IsWithinEllipse across down rx ry }
{
    if u128::from(rx) < across {
        return false;
    }
    if u128::from(ry) < down {
        return false;
    }
    is_within_ellipse(across, down, rx, ry)
}
