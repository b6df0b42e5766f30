ghost use Rattle.std.specs.Prelude.{◌≡◌, ◌↔◌, ◌^◌, ◌<◌, ◌≤◌, unsigned_abs, length, IsTrue, IfOk};
ghost use Rattle.std.specs.List.{All};
ghost use Rattle.image_maps.specs.Area.{IsNumber, corners, outline_of, Covers, covers_point, vertices};

use crate::round::in_circle;
use crate::straight::{in_rect, poly_of};
use poly_shapes::{FillRule, OutOfMemory, Poly};
use std::alloc::Global;
use std::marker::Model;

/// The shape that an area is given as. HTML, "The area element", the `shape` attribute.
#[derive(Clone, Copy, Debug, PartialEq, Eq, Hash)]
pub enum AreaKind {
    Rect,
    Circle,
    Poly,
    Default,
}

/// An area of an image map, which contracts see as its kind and the list of numbers that it was made of.
#[derive(Debug, Drop)]
pub struct AreaShape {
    kind: AreaKind,
    numbers: Vec<i64>,
    poly: Poly,
}

impl Model for AreaShape {
    ghost use Rattle.std.specs.Prelude.{◌≡◌, ◌≤◌, ◌^◌, length};
    ghost use Rattle.std.specs.List.{All};
    ghost use Rattle.image_maps.specs.Area.{Area, IsNumber, outline_of};

    ghost Value = { Area };

    ghost view = { λ area. record { kind = area.kind; numbers = area.numbers.items } };

    ghost invariant = { λ area. (length area.numbers.items ≤ 2 ^ 20) × All IsNumber area.numbers.items × (area.poly ≡ outline_of area.kind area.numbers.items) };
}

impl AreaShape {
    /// The area of a kind and of at most 1,048,576 numbers, each within 2^20 units.
    /// HTML, "Image map processing model".
    pub fn of(alloc: Global, kind: AreaKind, numbers: &[i64]) -> Result<AreaShape, OutOfMemory>
        requires few { length numbers.now ≤ 2 ^ 20 }
        requires within { All IsNumber numbers.now }
        ensures { IfOk result (λ area. area ≡ record { kind = kind; numbers = numbers.now }) }
    {
        let poly = poly_of(alloc, kind, numbers)?;
        let numbers = Vec::from_slice(alloc, numbers)?;
        Ok(AreaShape {
            kind,
            numbers,
            poly,
        })
    }

    /// Whether the area covers a point below 2^123 in size, which is counted in fine units from the padding corner of
    /// the image. HTML, "Image map processing model".
    pub fn covers(&self, x: i128, y: i128) -> bool
        requires x { unsigned_abs x < 2 ^ 123 }
        requires y { unsigned_abs y < 2 ^ 123 }
        ensures covers { IsTrue result ↔ Covers self.now x y }
        ensures test { result ≡ covers_point self.now x y }
    {
        self.holds(x, y)
    }

    // Whether the area covers a point, by its kind.
    fn holds(&self, x: i128, y: i128) -> bool
        requires x { unsigned_abs x < 2 ^ 123 }
        requires y { unsigned_abs y < 2 ^ 123 }
        ensures { IsTrue result ↔ Covers self.now x y }
    {
        match self.kind {
            AreaKind::Rect => in_rect(&self.numbers, x, y),
            AreaKind::Circle => in_circle(&self.numbers, x, y),
            AreaKind::Poly => self.poly.is_point_in_fill(FillRule::EvenOdd, x, y),
            AreaKind::Default => true,
        }
    }

    /// How many corners the polygon has: 0 for an area of another kind or of fewer than six numbers.
    pub fn vertices(&self) -> u32
        ensures { result ≡ vertices self.now }
    {
        self.poly.points().len() as u32
    }

    /// An equal area.
    pub fn copy(&self) -> Result<AreaShape, OutOfMemory>
        ensures { IfOk result (λ area. area ≡ self.now) }
    {
        AreaShape::of(*self.numbers.allocator(), self.kind, &self.numbers)
    }
}
