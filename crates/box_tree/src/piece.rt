ghost use Rattle.std.specs.Prelude.{◌↔◌, ◌≤ℤ◌, All, IsTrue};
ghost use Rattle.box_tree.specs.Contents.{IsBoxInRange, IsSpanInRange};

use std::marker::Model;

/// A border box on a line, in units (1/64 px) from the padding corner of the containing block.
#[derive(Clone, Copy, Debug, Default, PartialEq, Eq)]
pub struct Piece {
    /// The line box that it lies on, counted from 0.
    pub line: u16,
    /// The left edge, within 2^26 units.
    pub l: i64,
    /// The top edge, within 2^26 units.
    pub t: i64,
    /// The width, 0 to 2^26 units.
    pub w: i64,
    /// The height, 0 to 2^26 units.
    pub h: i64,
}

// The greatest size of a coordinate, in units.
pub(crate) const MOST: i64 = 1 << 26;

impl Piece {
    /// Whether its numbers and its right and bottom edges are within 2^26 units, and its sides not below 0.
    pub fn in_range(&self) -> bool
        ensures { IsTrue result ↔ IsBoxInRange self.now }
    {
        is_span_in_range(self.l, self.w) && is_span_in_range(self.t, self.h)
    }
}

// Whether a span from an edge on is within the limits.
fn is_span_in_range(from: i64, side: i64) -> bool
    ensures { IsTrue result ↔ IsSpanInRange from side }
{
    if !lies_between(-MOST, from, MOST) {
        return false;
    }
    if !lies_between(0, side, MOST) {
        return false;
    }
    from + side <= MOST
}

// Whether a number is at least the one and at most the other.
pub(crate) fn lies_between(least: i64, x: i64, most: i64) -> bool
    ensures { IsTrue result ↔ ((least ≤ℤ x) × (x ≤ℤ most)) }
{
    least <= x && x <= most
}

/// The boxes that an edit gives, which clauses see as a list.
#[derive(Debug, Drop)]
pub struct PieceList(pub Vec<Piece>);

impl Model for PieceList {
    ghost use Rattle.std.specs.Prelude.{List};
    ghost use Rattle.box_tree.specs.declared.piece.Piece.{Piece};

    ghost Value = { List Piece };

    ghost view = { λ list. list.0.items };
}

impl PieceList {
    // Whether each box is within the limits.
    pub(crate) fn in_range(&self) -> bool
        ensures { IsTrue result ↔ All IsBoxInRange self.now }
    {
        self.0.iter().all(|piece| piece.in_range())
    }
}
