// The limits of the numbers of a style.
ghost use Rattle.std.specs.Prelude.{◌↔◌, ◌≤ℤ◌, All, IsTrue, IfSome};
ghost use Rattle.computed_style.specs.Ranges.{IsWithin, IsSide, IsDenominator, AreWithin, IsLinearPartInRange, IsTranslationInRange, IsMatrixInRange, IsScaleInRange, IsFunctionInRange, IsStyleInRange};

use crate::function::Function;
use crate::style::Style;

// The greatest opacity, in thousandths.
const OPAQUE: u16 = 1000;

// The greatest number of functions of a transform.
const FUNCTIONS: usize = 16;

impl Style {
    /// Whether its numbers are within their limits, which its fields give.
    pub fn in_range(&self) -> bool
        ensures { IsTrue result ↔ IsStyleInRange self.now }
    {
        self.opacity <= OPAQUE
            && (self.transform.0.len() <= FUNCTIONS
                && (are_functions_in_range(&self.transform.0)
                    && (is_origin_in_range(self.origin)
                        && (are_widths(&self.border)
                            && (are_widths(&self.radii)
                                && is_stroke_width_in_range(self.stroke_width))))))
    }
}

impl Function {
    /// Whether its numbers are within their limits.
    pub fn in_range(&self) -> bool
        ensures { IsTrue result ↔ IsFunctionInRange self.now }
    {
        match *self {
            Function::Matrix {
                a,
                b,
                c,
                d,
                e,
                f,
                q,
            } => is_matrix_in_range(a, b, c, d, e, f, q),
            Function::Translate { x, y } => are_within_2_26(x, y),
            Function::Scale { x, y, q } => is_scale_in_range(x, y, q),
            Function::Quarter { turns } => turns <= 3,
        }
    }
}

// Whether each of these functions is within its limits.
fn are_functions_in_range(functions: &[Function]) -> bool
    ensures { IsTrue result ↔ All IsFunctionInRange functions.now }
{
    functions.iter().all(|function| function.in_range())
}

// Whether each of these borders or radii is within the limits.
fn are_widths(numbers: &[i64]) -> bool
    ensures { IsTrue result ↔ All (IsSide 20) numbers.now }
{
    numbers.iter().all(|number| is_width(*number))
}

fn is_width(number: i64) -> bool
    ensures { IsTrue result ↔ IsSide 20 number }
{
    lies_between(0, number, 1 << 20)
}

fn is_origin_in_range(origin: Option<(i64, i64)>) -> bool
    ensures { IsTrue result ↔ IfSome origin (λ origin. IsWithin 26 origin.0 × IsWithin 26 origin.1) }
{
    match origin {
        Some((x, y)) => is_coordinate(x) && is_coordinate(y),
        None => true,
    }
}

fn is_coordinate(number: i64) -> bool
    ensures { IsTrue result ↔ IsWithin 26 number }
{
    lies_between(-(1 << 26), number, 1 << 26)
}

fn is_stroke_width_in_range(width: Option<i64>) -> bool
    ensures { IsTrue result ↔ IfSome width (IsSide 26) }
{
    match width {
        Some(width) => lies_between(0, width, 1 << 26),
        None => true,
    }
}

fn are_within_2_26(x: i64, y: i64) -> bool
    ensures { IsTrue result ↔ AreWithin 26 x y }
{
    is_coordinate(x) && is_coordinate(y)
}

fn are_within_2_30(x: i64, y: i64) -> bool
    ensures { IsTrue result ↔ AreWithin 30 x y }
{
    lies_between(-(1 << 30), x, 1 << 30) && lies_between(-(1 << 30), y, 1 << 30)
}

fn are_within_2_40(x: i64, y: i64) -> bool
    ensures { IsTrue result ↔ AreWithin 40 x y }
{
    lies_between(-(1 << 40), x, 1 << 40) && lies_between(-(1 << 40), y, 1 << 40)
}

fn is_matrix_in_range(a: i64, b: i64, c: i64, d: i64, e: i64, f: i64, q: i64) -> bool
    ensures { IsTrue result ↔ IsMatrixInRange a b c d e f q }
{
    is_linear_part_in_range(a, b, c, d) && is_translation_in_range(e, f, q)
}

fn is_scale_in_range(x: i64, y: i64, q: i64) -> bool
    ensures { IsTrue result ↔ IsScaleInRange x y q }
{
    are_within_2_30(x, y) && is_denominator(q)
}

// Whether the numbers of a matrix but for those of its translation are within the limits.
fn is_linear_part_in_range(a: i64, b: i64, c: i64, d: i64) -> bool
    ensures { IsTrue result ↔ IsLinearPartInRange a b c d }
{
    are_within_2_30(a, b) && are_within_2_30(c, d)
}

// Whether those of its translation and the denominator of all are.
fn is_translation_in_range(e: i64, f: i64, q: i64) -> bool
    ensures { IsTrue result ↔ IsTranslationInRange e f q }
{
    are_within_2_40(e, f) && is_denominator(q)
}

fn is_denominator(q: i64) -> bool
    ensures { IsTrue result ↔ IsDenominator q }
{
    lies_between(1, q, 1 << 30)
}

// Whether a number is at least the one and at most the other.
fn lies_between(least: i64, x: i64, most: i64) -> bool
    ensures { IsTrue result ↔ ((least ≤ℤ x) × (x ≤ℤ most)) }
{
    least <= x && x <= most
}
