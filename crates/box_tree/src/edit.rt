ghost use Rattle.std.specs.Prelude.{◌≡◌, ◌↔◌, ◌≤ℤ◌, ◌^◌, pos, IsTrue};
ghost use Rattle.box_tree.specs.declared.edit.EditFault.TheVariants.{OutOfMemory};
ghost use Rattle.box_tree.specs.Contents.{IsWithin, IsSpotInRange, IsMaxInRange};
ghost use Rattle.box_tree.specs.Edited.{IsId, IsAddInRange, IsPlaceInRange, IsRestyleInRange, IsReshapeInRange, IsScrollInRange, IsResizeInRange, IsScrollViewInRange, IsInRange, fault_number, fault_name};

use crate::form::Form;
use crate::kind::Kind;
use crate::piece::{MOST, PieceList, lies_between};
use computed_style::Style;
use fractions::Spot;
use std::alloc::AllocError;
use thiserror::Error;

// The greatest side of the viewport, in units.
const LONGEST: i64 = 1 << 20;

/// A change of the page.
#[derive(Debug, Drop)]
pub enum Edit {
    /// A new node with the next id, as child number `at` of `parent`, or as the root where `parent` is 0.
    Add {
        parent: u32,
        at: u32,
        kind: Kind,
        boxes: PieceList,
        style: Style,
    },
    /// The node goes out of the page with all below it; the root too may go.
    Remove {
        id: u32,
    },
    /// The node goes with all below it to be child number `at` of `parent`, where the node itself isn't counted.
    Move {
        id: u32,
        parent: u32,
        at: u32,
    },
    /// The node gets this anchor, within 2^26 units either way, these boxes, and this greatest scroll, 0 to 2^26 units in
    /// each coordinate, to which its scroll is clamped.
    Place {
        id: u32,
        anchor: Spot,
        boxes: PieceList,
        max: Spot,
    },
    /// The node gets this declared style in place of the one that it had.
    Restyle {
        id: u32,
        style: Style,
    },
    /// The node gets this form in place of the one that it had.
    Reshape {
        id: u32,
        form: Form,
    },
    /// The node is scrolled to this position, within 2^26 units either way, each coordinate clamped between 0 and its
    /// greatest scroll. A scroll of a node that doesn't clip is kept too.
    Scroll {
        id: u32,
        x: i64,
        y: i64,
    },
    /// The viewport gets these sides, 1 to 2^20 units each, and this greatest scroll, 0 to 2^26 units in each coordinate, to
    /// which its scroll is clamped.
    Resize {
        w: i64,
        h: i64,
        max: Spot,
    },
    /// The viewport is scrolled to this position, within 2^26 units either way, each coordinate clamped between 0 and its
    /// greatest scroll.
    ScrollView {
        x: i64,
        y: i64,
    },
}

impl Edit {
    /// Whether its numbers are within their limits, as `Page::check` requires.
    pub fn in_range(&self) -> bool
        ensures { IsTrue result ↔ IsInRange self.now }
    {
        match self {
            Edit::Add { boxes, style, .. } => is_add_in_range(boxes, style),
            Edit::Remove { id } | Edit::Move { id, .. } => is_id(*id),
            Edit::Place {
                id,
                anchor,
                boxes,
                max,
            } => is_place_in_range(*id, *anchor, boxes, *max),
            Edit::Restyle { id, style } => is_restyle_in_range(*id, style),
            Edit::Reshape { id, form } => is_reshape_in_range(*id, form),
            Edit::Scroll { id, x, y } => is_scroll_in_range(*id, *x, *y),
            Edit::Resize { w, h, max } => is_resize_in_range(*w, *h, *max),
            Edit::ScrollView { x, y } => is_scroll_view_in_range(*x, *y),
        }
    }
}

// Whether a number is an id.
fn is_id(id: u32) -> bool
    ensures { IsTrue result ↔ IsId id }
{
    id > 0
}

// Whether the numbers of an add are within their limits.
fn is_add_in_range(boxes: &PieceList, style: &Style) -> bool
    ensures { IsTrue result ↔ IsAddInRange boxes.now style.now }
{
    boxes.in_range() && style.in_range()
}

// Whether the numbers of a place are within their limits.
fn is_place_in_range(id: u32, anchor: Spot, boxes: &PieceList, max: Spot) -> bool
    ensures { IsTrue result ↔ IsPlaceInRange id anchor boxes.now max }
{
    is_id(id) && is_spot_in_range(anchor) && boxes.in_range() && is_max_in_range(max)
}

// Whether the numbers of a restyle are within their limits.
fn is_restyle_in_range(id: u32, style: &Style) -> bool
    ensures { IsTrue result ↔ IsRestyleInRange id style.now }
{
    is_id(id) && style.in_range()
}

// Whether the numbers of a reshape are within their limits.
fn is_reshape_in_range(id: u32, form: &Form) -> bool
    ensures { IsTrue result ↔ IsReshapeInRange id form.now }
{
    is_id(id) && form.in_range()
}

// Whether the numbers of a scroll are within their limits.
fn is_scroll_in_range(id: u32, x: i64, y: i64) -> bool
    ensures { IsTrue result ↔ IsScrollInRange id x y }
{
    is_id(id) && (is_coordinate(x) && is_coordinate(y))
}

// Whether the numbers of a scroll of the viewport are within their limits.
fn is_scroll_view_in_range(x: i64, y: i64) -> bool
    ensures { IsTrue result ↔ IsScrollViewInRange x y }
{
    is_coordinate(x) && is_coordinate(y)
}

// Whether a coordinate is within the limits.
fn is_coordinate(number: i64) -> bool
    ensures { IsTrue result ↔ IsWithin 26 number }
{
    lies_between(-MOST, number, MOST)
}

// Whether the numbers of a resize are within their limits.
fn is_resize_in_range(w: i64, h: i64, max: Spot) -> bool
    ensures { IsTrue result ↔ IsResizeInRange w h max }
{
    is_viewport_side(w) && (is_viewport_side(h) && is_max_in_range(max))
}

// Whether a side of the viewport is within the limits.
fn is_viewport_side(side: i64) -> bool
    ensures { IsTrue result ↔ ((pos 1 ≤ℤ side) × (side ≤ℤ pos (2 ^ 20))) }
{
    lies_between(1, side, LONGEST)
}

// Whether a point is within the limits.
fn is_spot_in_range(spot: Spot) -> bool
    ensures { IsTrue result ↔ IsSpotInRange spot }
{
    lies_between(-MOST, spot.x, MOST) && lies_between(-MOST, spot.y, MOST)
}

// Whether a greatest scroll is within the limits.
fn is_max_in_range(max: Spot) -> bool
    ensures { IsTrue result ↔ IsMaxInRange max }
{
    lies_between(0, max.x, MOST) && lies_between(0, max.y, MOST)
}

/// What an accepted edit answers.
#[derive(Clone, Copy, Debug, PartialEq, Eq)]
pub enum Done {
    /// The id of the node that was added.
    Node { id: u32 },
    /// Any other edit.
    Done,
}

/// Why an edit was refused, in the order of the tests.
#[derive(Clone, Copy, Debug, PartialEq, Eq, Error)]
pub enum EditFault {
    #[error("an id that it names is not in the page")]
    Absent,
    #[error("the page would have a second root, or its root would have a parent")]
    Root,
    #[error("the kind does not suit its parent, or the edit, the style or the boxes do not suit the kind")]
    Kind,
    #[error("a node would be moved below itself")]
    Cycle,
    #[error("the place is above the number of children")]
    Place,
    #[error("a node would be deeper than 256")]
    Deep,
    #[error("the page is full")]
    Full,
    #[error("a map on the way to a node would pass the bound")]
    Bound,
    #[error("out of memory")]
    OutOfMemory,
}

impl EditFault {
    /// Its number in replies; none exactly for want of memory.
    pub fn number(&self) -> Option<u8>
        ensures { result ≡ fault_number self.now }
    {
        match self {
            EditFault::Absent => Some(4),
            EditFault::Root => Some(5),
            EditFault::Kind => Some(6),
            EditFault::Cycle => Some(7),
            EditFault::Place => Some(8),
            EditFault::Deep => Some(9),
            EditFault::Full => Some(10),
            EditFault::Bound => Some(11),
            EditFault::OutOfMemory => None,
        }
    }

    /// Its name in replies.
    pub fn name(&self) -> &'static str
        ensures { result.now ≡ fault_name self.now }
    {
        match self {
            EditFault::Absent => "absent",
            EditFault::Root => "root",
            EditFault::Kind => "kind",
            EditFault::Cycle => "cycle",
            EditFault::Place => "place",
            EditFault::Deep => "deep",
            EditFault::Full => "full",
            EditFault::Bound => "bound",
            EditFault::OutOfMemory => "memory",
        }
    }
}

impl From<AllocError> for EditFault {
    ghost from_gives = { λ _ fault. fault ≡ OutOfMemory };

    fn from(_error: AllocError) -> EditFault {
        EditFault::OutOfMemory
    }
}

impl From<svg_shapes::OutOfMemory> for EditFault {
    ghost from_gives = { λ _ fault. fault ≡ OutOfMemory };

    fn from(_error: svg_shapes::OutOfMemory) -> EditFault {
        EditFault::OutOfMemory
    }
}

impl From<computed_style::OutOfMemory> for EditFault {
    ghost from_gives = { λ _ fault. fault ≡ OutOfMemory };

    fn from(_error: computed_style::OutOfMemory) -> EditFault {
        EditFault::OutOfMemory
    }
}
