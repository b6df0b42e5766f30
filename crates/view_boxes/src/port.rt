ghost use Rattle.std.specs.Prelude.{◌↔◌, ◌≤ℤ◌, IsTrue, IfSome};
ghost use Rattle.computed_style.specs.Ranges.{IsWithin, AreWithin, IsSide};
ghost use Rattle.view_boxes.specs.Ranges.{AreSides, IsBoxInRange, IsViewBoxInRange, IsPortInRange};

/// Where along an axis a viewBox that doesn't fill its viewport stands. SVG 2, "The
/// 'preserveAspectRatio' attribute".
#[derive(Clone, Copy, Debug, PartialEq, Eq, Hash)]
pub enum Side {
    /// Least with least.
    Min,
    /// Middle with middle.
    Mid,
    /// Greatest with greatest.
    Max,
}

/// Whether the ratio of a viewBox's sides is kept, and if so, where the viewBox stands. SVG 2, "The
/// 'preserveAspectRatio' attribute".
#[derive(Clone, Copy, Debug, PartialEq, Eq, Hash)]
pub enum Align {
    /// Each axis is scaled apart, so that the viewBox fills the viewport: `none`.
    Stretch,
    /// Both axes are scaled alike: `xMin`, `xMid` or `xMax` with `YMin`, `YMid` or `YMax`.
    Keep { x: Side, y: Side },
}

/// Which scale both axes have where they are scaled alike. SVG 2, "The
/// 'preserveAspectRatio' attribute".
#[derive(Clone, Copy, Debug, PartialEq, Eq, Hash)]
pub enum Fit {
    /// The greatest with which the whole viewBox is seen.
    Meet,
    /// The least with which the whole viewport is filled.
    Slice,
}

/// The rectangle of user space that is to fill a viewport, in fine units of 1/4096 px: its place within 2^26, its sides
/// from 0 to 2^26. SVG 2, "The 'viewBox' attribute".
#[derive(Clone, Copy, Debug, PartialEq, Eq, Hash)]
pub struct ViewBox {
    pub x: i64,
    pub y: i64,
    pub w: i64,
    pub h: i64,
    pub align: Align,
    pub fit: Fit,
}

impl ViewBox {
    /// Whether its numbers are within their limits.
    pub fn in_range(&self) -> bool
        ensures { IsTrue result ↔ IsViewBoxInRange self.now }
    {
        is_box_in_range(self.x, self.y, self.w, self.h)
    }
}

/// A viewport in the user space around it, in fine units of 1/4096 px: its place within 2^26, its sides from 0 to 2^26.
/// SVG 2, "Establishing a new SVG viewport".
#[derive(Clone, Copy, Debug, PartialEq, Eq, Hash)]
pub struct Port {
    pub x: i64,
    pub y: i64,
    pub w: i64,
    pub h: i64,
    pub view: Option<ViewBox>,
}

impl Port {
    /// Whether its numbers and those of its viewBox are within their limits.
    pub fn in_range(&self) -> bool
        ensures { IsTrue result ↔ IsPortInRange self.now }
    {
        is_box_in_range(self.x, self.y, self.w, self.h) && is_view_in_range(&self.view)
    }
}

// Whether the numbers of a viewBox are within their limits, where there is one.
fn is_view_in_range(view: &Option<ViewBox>) -> bool
    ensures { IsTrue result ↔ IfSome view.now IsViewBoxInRange }
{
    match view {
        Some(view) => view.in_range(),
        None => true,
    }
}

// Whether a place and two sides are within their limits.
fn is_box_in_range(x: i64, y: i64, w: i64, h: i64) -> bool
    ensures { IsTrue result ↔ IsBoxInRange x y w h }
{
    is_place(x, y) && are_sides(w, h)
}

fn is_place(x: i64, y: i64) -> bool
    ensures { IsTrue result ↔ AreWithin 26 x y }
{
    is_coordinate(x) && is_coordinate(y)
}

fn is_coordinate(number: i64) -> bool
    ensures { IsTrue result ↔ IsWithin 26 number }
{
    lies_between(-(1 << 26), number, 1 << 26)
}

fn are_sides(w: i64, h: i64) -> bool
    ensures { IsTrue result ↔ AreSides w h }
{
    is_side(w) && is_side(h)
}

fn is_side(number: i64) -> bool
    ensures { IsTrue result ↔ IsSide 26 number }
{
    lies_between(0, number, 1 << 26)
}

// Whether a number is at least the one and at most the other.
fn lies_between(least: i64, x: i64, most: i64) -> bool
    ensures { IsTrue result ↔ ((least ≤ℤ x) × (x ≤ℤ most)) }
{
    least <= x && x <= most
}
