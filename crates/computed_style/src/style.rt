ghost use Rattle.std.specs.Prelude.{◌≡◌, IfOk};
ghost use Rattle.std.specs.List.{list_all};
ghost use Rattle.computed_style.specs.Defaults.{empty_style, is_zero, is_empty as is_empty_style, is_static as is_static_position, has_initial_flow as flow_is_initial, has_initial_box as box_is_initial, inherits_all as all_are_inherited};

use crate::function::Functions;
use crate::memory::OutOfMemory;
use crate::pointer_events::PointerEvents;
use std::alloc::Global;

/// The property 'position'. CSS 2.2, "Choosing a positioning scheme".
#[derive(Clone, Copy, Debug, PartialEq, Eq, Hash)]
pub enum Position {
    Static,
    Relative,
    Absolute,
    Fixed,
}

/// The property 'overflow'. CSS 2.2, "Overflow". 'hidden' and 'scroll' clip alike.
#[derive(Clone, Copy, Debug, PartialEq, Eq, Hash)]
pub enum Overflow {
    Visible,
    Auto,
    Clip,
}

/// The property 'fill-rule'. SVG 2, "Fill properties".
#[derive(Clone, Copy, Debug, PartialEq, Eq, Hash)]
pub enum Rule {
    NonZero,
    EvenOdd,
}

/// The property 'stroke-linecap'. SVG 2, "Stroke properties".
#[derive(Clone, Copy, Debug, PartialEq, Eq, Hash)]
pub enum Ends {
    Butt,
    Round,
    Square,
}

/// The values that are declared on an element. The last seven are inherited where they are None.
#[derive(Debug, Drop)]
pub struct Style {
    pub position: Position,
    /// Whether 'float' is 'left' or 'right'.
    pub floats: bool,
    /// 'z-index'; None for 'auto'.
    pub z: Option<i32>,
    /// 'opacity' in thousandths, 0 to 1,000.
    pub opacity: u16,
    /// 'transform', at most 16 functions; none of them for 'none'.
    pub transform: Functions,
    /// 'transform-origin', within 2^26 units (1/64 px): from the corner of the border box, in SVG content from the
    /// origin of the user space. None for the centre of the border box, in SVG content for that origin.
    pub origin: Option<(i64, i64)>,
    /// 'overflow'; None where it isn't declared.
    pub overflow: Option<Overflow>,
    /// The border widths, top, right, bottom and left, 0 to 2^20 units.
    pub border: [i64; 4],
    /// 'border-radius', 0 to 2^20 units: top left x and y, top right x and y, bottom right x and y, bottom left x
    /// and y.
    pub radii: [i64; 8],
    /// Whether 'display' is 'block', which acts on replaced elements alone.
    pub display_block: bool,
    /// Whether 'visibility' is 'visible'.
    pub visible: Option<bool>,
    /// 'pointer-events'.
    pub pointer: Option<PointerEvents>,
    /// Whether 'fill' is a paint.
    pub fill: Option<bool>,
    /// Whether 'stroke' is a paint.
    pub stroke: Option<bool>,
    /// 'stroke-width', 0 to 2^26 fine units (1/4096 px).
    pub stroke_width: Option<i64>,
    /// 'fill-rule'.
    pub rule: Option<Rule>,
    /// 'stroke-linecap'.
    pub ends: Option<Ends>,
}

impl Style {
    /// The style in which nothing is declared: each property that isn't inherited has its initial value. It takes no
    /// memory; the allocator serves its list of functions when that grows.
    pub fn new(alloc: Global) -> Style
        ensures { result ≡ empty_style }
    {
        Style {
            position: Position::Static,
            floats: false,
            z: None,
            opacity: 1000,
            transform: Functions(Vec::new(alloc)),
            origin: None,
            overflow: None,
            border: [0; 4],
            radii: [0; 8],
            display_block: false,
            visible: None,
            pointer: None,
            fill: None,
            stroke: None,
            stroke_width: None,
            rule: None,
            ends: None,
        }
    }

    /// An equal style with memory of its own, or want of memory.
    pub fn copy(&self) -> Result<Style, OutOfMemory>
        ensures { IfOk result (λ copied. copied ≡ self.now) }
    {
        let transform = self.transform.copy()?;
        Ok(Style { transform, ..*self })
    }

    /// Whether it has the value of the empty style, in which nothing is declared: so a value that is declared as the
    /// initial one of a property that isn't inherited counts as none.
    pub fn is_empty(&self) -> bool
        ensures { result ≡ is_empty_style self.now }
    {
        self.has_initial_flow() && (self.has_initial_box() && self.inherits_all())
    }

    // Whether it is in flow, opaque, and of no level of its own.
    fn has_initial_flow(&self) -> bool
        ensures { result ≡ flow_is_initial self.now }
    {
        is_static(self.position)
            && (!self.floats && (self.z.is_none() && (self.opacity == 1000 && !self.display_block)))
    }

    // Whether its box has no transform, no overflow given, no borders and no radii.
    fn has_initial_box(&self) -> bool
        ensures { result ≡ box_is_initial self.now }
    {
        self.transform.0.is_empty()
            && (self.origin.is_none()
                && (self.overflow.is_none() && (are_zeros(&self.border) && are_zeros(&self.radii))))
    }

    // Whether each property that is inherited is left to the parent.
    fn inherits_all(&self) -> bool
        ensures { result ≡ all_are_inherited self.now }
    {
        self.visible.is_none()
            && (self.pointer.is_none()
                && (self.fill.is_none()
                    && (self.stroke.is_none()
                        && (self.stroke_width.is_none()
                            && (self.rule.is_none() && self.ends.is_none())))))
    }
}

// Whether a position is 'static'.
fn is_static(position: Position) -> bool
    ensures { result ≡ is_static_position position }
{
    match position {
        Position::Static => true,
        Position::Relative | Position::Absolute | Position::Fixed => false,
    }
}

// Whether all of these numbers are 0.
fn are_zeros(numbers: &[i64]) -> bool
    ensures { result ≡ list_all is_zero numbers.now }
{
    numbers.iter().all(|number| *number == 0)
}
