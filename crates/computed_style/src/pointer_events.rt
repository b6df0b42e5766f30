ghost use Rattle.std.specs.Prelude.{◌≡◌};
ghost use Rattle.computed_style.specs.PointerEvents.{box_is_target, shape_is_target, is_over_paint};

use crate::inherited::Inherited;

/// The property 'pointer-events'. SVG 2, "The 'pointer-events' property".
#[derive(Clone, Copy, Debug, PartialEq, Eq, Hash)]
pub enum PointerEvents {
    Auto,
    None,
    VisiblePainted,
    VisibleFill,
    VisibleStroke,
    Visible,
    Painted,
    Fill,
    Stroke,
    All,
}

/// Whether a CSS box with these values can be the target of a pointer over it: it is visible, and its
/// 'pointer-events' isn't none; every other value acts on it as auto. CSS Basic User Interface 4, "pointer-events".
pub fn admits_box(values: &Inherited) -> bool
    ensures { result ≡ box_is_target values.now }
{
    values.visible && values.pointer != PointerEvents::None
}

/// Whether a shape with these values can be the target of a pointer that is over its interior, over its perimeter,
/// over both or over neither, by the table of 'pointer-events'. SVG 2, "The 'pointer-events' property".
pub fn admits_shape(values: &Inherited, over_fill: bool, over_stroke: bool) -> bool
    ensures { result ≡ shape_is_target values.now over_fill over_stroke }
{
    let visible = values.visible;
    match values.pointer {
        PointerEvents::Auto | PointerEvents::VisiblePainted => {
            visible && meets_paint(values, over_fill, over_stroke)
        }
        PointerEvents::VisibleFill => visible && over_fill,
        PointerEvents::VisibleStroke => visible && over_stroke,
        PointerEvents::Visible => visible && (over_fill || over_stroke),
        PointerEvents::Painted => meets_paint(values, over_fill, over_stroke),
        PointerEvents::Fill => over_fill,
        PointerEvents::Stroke => over_stroke,
        PointerEvents::All => over_fill || over_stroke,
        PointerEvents::None => false,
    }
}

/// Whether the pointer is over an interior that is painted, or over a perimeter that is.
fn meets_paint(values: &Inherited, over_fill: bool, over_stroke: bool) -> bool
    ensures { result ≡ is_over_paint values.now over_fill over_stroke }
{
    over_fill && values.fill || over_stroke && values.stroke
}
