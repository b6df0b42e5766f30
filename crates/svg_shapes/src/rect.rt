ghost use Rattle.std.specs.Prelude.{◌≡◌, ◌↔◌, ◌^◌, ◌<◌, unsigned_abs, IsTrue};
ghost use Rattle.svg_shapes.specs.Measures.{IsLength, IsBoxMeasured};
ghost use Rattle.svg_shapes.specs.Rects.{IsRectWithin, used_radius, rect_of, rounded, grown_rect, shrunk_rect, RectHolds, RectBandHolds, InRect, OnRect};

use crate::boxes::FineBox;
use corner_shapes::{Corners, Rounded};

/// A rectangle with four like corners, in half fine units.
#[derive(Clone, Copy)]
pub struct RoundRect {
    pub l: i64,
    pub t: i64,
    pub r: i64,
    pub b: i64,
    pub rx: i64,
    pub ry: i64,
}

impl RoundRect {
    fn of(sides: FineBox, rx: i64, ry: i64) -> RoundRect
        requires sides { IsBoxMeasured sides }
        requires rx { IsLength rx }
        requires ry { IsLength ry }
        ensures value { result ≡ rect_of sides rx ry }
        ensures within { IsRectWithin (2 ^ 28) (2 ^ 26) result }
    {
        RoundRect {
            l: 2 * sides.x,
            t: 2 * sides.y,
            r: 2 * (sides.x + sides.w),
            b: 2 * (sides.y + sides.h),
            rx: used_radius(sides.w, rx, ry),
            ry: used_radius(sides.h, ry, rx),
        }
    }

    fn grown(self, width: i64) -> RoundRect
        requires rect { IsRectWithin (2 ^ 28) (2 ^ 26) self }
        requires width { IsLength width }
        ensures value { result ≡ grown_rect (unsigned_abs width) self }
        ensures within { IsRectWithin (2 ^ 29) (2 ^ 27) result }
    {
        RoundRect {
            l: self.l - width,
            t: self.t - width,
            r: self.r + width,
            b: self.b + width,
            rx: self.rx + width,
            ry: self.ry + width,
        }
    }

    fn shrunk(self, width: i64) -> RoundRect
        requires rect { IsRectWithin (2 ^ 28) (2 ^ 26) self }
        requires width { IsLength width }
        ensures value { result ≡ shrunk_rect (unsigned_abs width) self }
        ensures within { IsRectWithin (2 ^ 29) (2 ^ 27) result }
    {
        RoundRect {
            l: self.l + width,
            t: self.t + width,
            r: self.r - width,
            b: self.b - width,
            rx: (self.rx - width).max(0),
            ry: (self.ry - width).max(0),
        }
    }

    fn rounded(self) -> Rounded
        ensures { result ≡ rounded self }
    {
        let RoundRect { l, t, r, b, rx, ry } = self;
        let corners = Corners {
            r: [rx, ry, rx, ry, rx, ry, rx, ry],
        };
        Rounded {
            l,
            t,
            r,
            b,
            corners,
        }
    }

    /// Whether the rectangle holds a point, which is given in fine units.
    fn holds(self, x: i128, y: i128) -> bool
        requires rect { IsRectWithin (2 ^ 29) (2 ^ 27) self }
        requires x { unsigned_abs x < 2 ^ 123 }
        requires y { unsigned_abs y < 2 ^ 123 }
        ensures { IsTrue result ↔ RectHolds self x y }
    {
        self.rounded().holds(2 * x, 2 * y)
    }

    /// Whether the rectangle grown by half a stroke's width holds a point, and the one shrunk by it doesn't.
    fn has_in_band(self, width: i64, x: i128, y: i128) -> bool
        requires rect { IsRectWithin (2 ^ 28) (2 ^ 26) self }
        requires width { IsLength width }
        requires x { unsigned_abs x < 2 ^ 123 }
        requires y { unsigned_abs y < 2 ^ 123 }
        ensures { IsTrue result ↔ RectBandHolds (unsigned_abs width) self x y }
    {
        self.grown(width).holds(x, y) && !self.shrunk(width).holds(x, y)
    }
}

/// The used radius along a side, in half fine units.
fn used_radius(side: i64, own: i64, other: i64) -> i64
    requires side { IsLength side }
    requires own { IsLength own }
    requires other { IsLength other }
    ensures value { result ≡ used_radius side own other }
    ensures within { IsLength result }
{
    if own > 0 && other > 0 {
        (2 * own).min(side)
    } else {
        0
    }
}

/// Whether a rect with these sides and radii has a point in its interior.
pub fn in_rect(sides: FineBox, rx: i64, ry: i64, x: i128, y: i128) -> bool
    requires sides { IsBoxMeasured sides }
    requires rx { IsLength rx }
    requires ry { IsLength ry }
    requires x { unsigned_abs x < 2 ^ 123 }
    requires y { unsigned_abs y < 2 ^ 123 }
    ensures { IsTrue result ↔ InRect sides rx ry x y }
{
    if sides.w == 0 || sides.h == 0 {
        return false;
    }
    RoundRect::of(sides, rx, ry).holds(x, y)
}

/// Whether a rect with these sides and radii has a point in the band of its stroke.
pub fn on_rect(sides: FineBox, rx: i64, ry: i64, width: i64, x: i128, y: i128) -> bool
    requires sides { IsBoxMeasured sides }
    requires rx { IsLength rx }
    requires ry { IsLength ry }
    requires width { IsLength width }
    requires x { unsigned_abs x < 2 ^ 123 }
    requires y { unsigned_abs y < 2 ^ 123 }
    ensures { IsTrue result ↔ OnRect sides rx ry (unsigned_abs width) x y }
{
    if sides.w == 0 || sides.h == 0 || width == 0 {
        return false;
    }
    RoundRect::of(sides, rx, ry).has_in_band(width, x, y)
}
