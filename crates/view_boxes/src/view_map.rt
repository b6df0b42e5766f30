ghost use Rattle.std.specs.Prelude.{◌≡◌, ◌↔◌, ◌^◌, ◌≤◌, pos, ◌-ℤ◌, ◌+ℤ◌, ◌*ℤ◌, ◌<ℤ◌, IsTrue, IsFalse, unsigned_abs};
ghost use Rattle.computed_style.specs.Ranges.{IsSide};
ghost use Rattle.affine.specs.Map.{IsWithin};
ghost use Rattle.view_boxes.specs.Ranges.{IsViewBoxInRange, IsPortInRange};
ghost use Rattle.view_boxes.specs.Views.{IsViewMap, says_disabled, given_map, has_no_area, is_disabled, scale, scale_x, scale_y, side_x, side_y, doubled_share, doubled_translation, parts_of_view, parts_of};

use crate::port::{Align, Fit, Port, Side, ViewBox};
use affine::{Map, Parts, from_parts};

/// What a viewport makes of its viewBox.
#[derive(Clone, Copy, Debug, PartialEq, Eq)]
pub enum ViewMap {
    /// The map from the user space in the viewport to the one around it, in units of 1/64 px.
    Given { map: Map },
    /// Nothing in the viewport is rendered.
    Disabled,
    /// That map passes the bound on maps.
    Beyond,
}

impl ViewMap {
    /// Whether nothing in the viewport is rendered.
    pub fn is_disabled(&self) -> bool
        ensures { result ≡ says_disabled self.now }
    {
        match self {
            ViewMap::Disabled => true,
            ViewMap::Given { .. } | ViewMap::Beyond => false,
        }
    }

    /// The map, where it is given.
    pub fn map(&self) -> Option<Map>
        ensures { result ≡ given_map self.now }
    {
        match self {
            ViewMap::Given { map } => Some(*map),
            ViewMap::Disabled | ViewMap::Beyond => None,
        }
    }
}

/// The map of a viewport of `w` by `h` fine units (1/4096 px), each from 0 to 2^32, at the place of the port and with its
/// viewBox, whose numbers are within their limits. The port's own sides aren't used. SVG 2, "Computing the equivalent
/// transform of an SVG viewport".
pub fn view_box(w: i64, h: i64, port: &Port) -> ViewMap
    requires width { IsSide 32 w }
    requires height { IsSide 32 h }
    requires port { IsPortInRange port.now }
    ensures { IsViewMap w h port.now result }
{
    if is_disabled(w, h, &port.view) {
        return ViewMap::Disabled;
    }
    match from_parts(&parts_of(w, h, port)) {
        Some(map) => ViewMap::Given { map },
        None => ViewMap::Beyond,
    }
}

// Whether a side of 0 disables rendering.
fn is_disabled(w: i64, h: i64, view: &Option<ViewBox>) -> bool
    ensures { result ≡ is_disabled w h view.now }
{
    match view {
        Some(view) => has_no_area(w, h) || has_no_area(view.w, view.h),
        None => has_no_area(w, h),
    }
}

// Whether a side is 0.
fn has_no_area(w: i64, h: i64) -> bool
    ensures { result ≡ has_no_area w h }
{
    w == 0 || h == 0
}

// The map of a viewport, not yet in lowest terms.
fn parts_of(w: i64, h: i64, port: &Port) -> Parts
    requires width { IsSide 32 w }
    requires height { IsSide 32 h }
    requires port { IsPortInRange port.now }
    requires enabled { IsFalse (is_disabled w h port.now.view) }
    ensures value { result ≡ parts_of port.now.x port.now.y w h port.now.view }
    ensures size { IsWithin result (2 ^ 120) (2 ^ 120) }
    ensures positive { pos 0 <ℤ result.q }
{
    match &port.view {
        Some(view) => parts_of_view(port.x, port.y, w, h, view),
        None => Parts {
            a: 64,
            b: 0,
            c: 0,
            d: 64,
            e: i128::from(port.x),
            f: i128::from(port.y),
            q: 64,
        },
    }
}

// The map of a viewBox, over 128 times the product of its sides.
fn parts_of_view(x: i64, y: i64, w: i64, h: i64, view: &ViewBox) -> Parts
    requires place_x { unsigned_abs x ≤ 2 ^ 26 }
    requires place_y { unsigned_abs y ≤ 2 ^ 26 }
    requires width { unsigned_abs w ≤ 2 ^ 32 }
    requires height { unsigned_abs h ≤ 2 ^ 32 }
    requires view { IsViewBoxInRange view.now }
    requires across { pos 0 <ℤ view.now.w }
    requires down { pos 0 <ℤ view.now.h }
    ensures value { result ≡ parts_of_view x y w h view.now }
    ensures size { IsWithin result (2 ^ 120) (2 ^ 120) }
    ensures positive { pos 0 <ℤ result.q }
{
    let one = area(view.w, view.h);
    let across = area(w, view.h);
    let down = area(h, view.w);
    let scale_x = scale(view.align, view.fit, across, down);
    let scale_y = scale(view.align, view.fit, down, across);
    Parts {
        a: 128 * scale_x,
        b: 0,
        c: 0,
        d: 128 * scale_y,
        e: doubled_translation(side_x(view.align), x, w, view.x, view.w, scale_x, one),
        f: doubled_translation(side_y(view.align), y, h, view.y, view.h, scale_y, one),
        q: 128 * one,
    }
}

// A side of a viewport or of a viewBox, times a side of a viewBox.
fn area(w: i64, h: i64) -> i128
    requires w_size { unsigned_abs w ≤ 2 ^ 32 }
    requires h_size { unsigned_abs h ≤ 2 ^ 26 }
    ensures value { result ≡ w *ℤ h }
    ensures size { unsigned_abs result ≤ 2 ^ 58 }
{
    i128::from(w) * i128::from(h)
}

// The scale of an axis, by what both scales are at first.
fn scale(align: Align, fit: Fit, own: i128, other: i128) -> i128
    requires own_size { unsigned_abs own ≤ 2 ^ 58 }
    requires other_size { unsigned_abs other ≤ 2 ^ 58 }
    ensures value { result ≡ scale align fit own other }
    ensures size { unsigned_abs result ≤ 2 ^ 58 }
{
    match align {
        Align::Stretch => own,
        Align::Keep { .. } => match fit {
            Fit::Meet => own.min(other),
            Fit::Slice => own.max(other),
        },
    }
}

fn side_x(align: Align) -> Side
    ensures { result ≡ side_x align }
{
    match align {
        Align::Stretch => Side::Min,
        Align::Keep { x, .. } => x,
    }
}

fn side_y(align: Align) -> Side
    ensures { result ≡ side_y align }
{
    match align {
        Align::Stretch => Side::Min,
        Align::Keep { y, .. } => y,
    }
}

// Twice the translation along an axis, over the product of the sides of the viewBox, which is `one`.
fn doubled_translation(
    at: Side,
    place: i64,
    side: i64,
    from: i64,
    length: i64,
    scale: i128,
    one: i128,
) -> i128
    requires place_size { unsigned_abs place ≤ 2 ^ 26 }
    requires side_size { unsigned_abs side ≤ 2 ^ 32 }
    requires from_size { unsigned_abs from ≤ 2 ^ 26 }
    requires length_size { unsigned_abs length ≤ 2 ^ 26 }
    requires scale_size { unsigned_abs scale ≤ 2 ^ 58 }
    requires one_size { unsigned_abs one ≤ 2 ^ 58 }
    ensures value { result ≡ doubled_translation at place side from length scale one }
    ensures size { unsigned_abs result ≤ 2 ^ 94 }
{
    let corner = moved(place, from, scale, one);
    let left = moved(side, length, scale, one);
    2 * corner + doubled_share(at, left)
}

// A place or a side of a viewport, less that of its viewBox as it is scaled.
fn moved(of: i64, less: i64, scale: i128, one: i128) -> i128
    requires of_size { unsigned_abs of ≤ 2 ^ 32 }
    requires less_size { unsigned_abs less ≤ 2 ^ 32 }
    requires scale_size { unsigned_abs scale ≤ 2 ^ 58 }
    requires one_size { unsigned_abs one ≤ 2 ^ 58 }
    ensures value { result ≡ of *ℤ one -ℤ less *ℤ scale }
    ensures size { unsigned_abs result ≤ 2 ^ 91 }
{
    times(of, one) - times(less, scale)
}

// A number of a viewport or a viewBox, times a number over the product of the sides.
fn times(number: i64, parts: i128) -> i128
    requires number_size { unsigned_abs number ≤ 2 ^ 32 }
    requires parts_size { unsigned_abs parts ≤ 2 ^ 58 }
    ensures value { result ≡ number *ℤ parts }
    ensures size { unsigned_abs result ≤ 2 ^ 90 }
{
    i128::from(number) * parts
}

// Twice what is added to a translation of what is left.
fn doubled_share(at: Side, left: i128) -> i128
    requires { unsigned_abs left ≤ 2 ^ 91 }
    ensures value { result ≡ doubled_share at left }
    ensures size { unsigned_abs result ≤ 2 ^ 92 }
{
    match at {
        Side::Min => 0,
        Side::Mid => left,
        Side::Max => 2 * left,
    }
}

#[cfg(test)]
mod tests;
