ghost use Rattle.std.specs.Prelude.{◌≡◌};
ghost use Rattle.computed_style.specs.Inheritance.{initial_values, computed};

use crate::pointer_events::PointerEvents;
use crate::style::{Ends, Rule, Style};

/// The computed values of the properties that are inherited.
#[derive(Clone, Copy, Debug, PartialEq, Eq, Hash)]
pub struct Inherited {
    /// Whether 'visibility' is 'visible'.
    pub visible: bool,
    /// 'pointer-events'.
    pub pointer: PointerEvents,
    /// Whether 'fill' is a paint.
    pub fill: bool,
    /// Whether 'stroke' is a paint.
    pub stroke: bool,
    /// 'stroke-width', 0 to 2^26 fine units (1/4096 px).
    pub stroke_width: i64,
    /// 'fill-rule'.
    pub rule: Rule,
    /// 'stroke-linecap'.
    pub ends: Ends,
}

impl Inherited {
    /// The initial values, which stand above the root. CSS Cascading and Inheritance 4, "Initial Values".
    pub fn initial() -> Inherited
        ensures { result ≡ initial_values }
    {
        Inherited {
            visible: true,
            pointer: PointerEvents::Auto,
            fill: true,
            stroke: false,
            stroke_width: 4096,
            rule: Rule::NonZero,
            ends: Ends::Butt,
        }
    }
}

/// The values of an element with a declared style, below one with the values `above`: each the declared value, or the
/// inherited one where none is declared. CSS Cascading and Inheritance 4, "Inheritance".
pub fn compute(above: &Inherited, own: &Style) -> Inherited
    ensures { result ≡ computed above.now own.now }
{
    Inherited {
        visible: own.visible.unwrap_or(above.visible),
        pointer: own.pointer.unwrap_or(above.pointer),
        fill: own.fill.unwrap_or(above.fill),
        stroke: own.stroke.unwrap_or(above.stroke),
        stroke_width: own.stroke_width.unwrap_or(above.stroke_width),
        rule: own.rule.unwrap_or(above.rule),
        ends: own.ends.unwrap_or(above.ends),
    }
}
