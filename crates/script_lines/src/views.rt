// The viewBox and the viewport that a JSON array spells.
ghost use Rattle.std.specs.Prelude.{◌≡◌, ◌≤◌, IfSome, Some, option_map, option_and_then};
ghost use Rattle.serde_json.specs.Find.{as_str};
ghost use Rattle.serde_json.specs.View.{view};
ghost use Rattle.view_boxes.specs.Ranges.{IsViewBoxInRange, IsPortInRange};
ghost use Rattle.script_lines.specs.Views.{align_named, fit_named, view_at, view_of, port_with, port_of};

use crate::shapes::{place_from, sizes_from};
use crate::values::is_array_of;
use serde_json::Value;
use view_boxes::{Align, Fit, Port, Side, ViewBox};

fn keep(x: Side, y: Side) -> Option<Align>
    ensures { result ≡ Some (Align.Keep x y) }
{
    Some(Align::Keep { x, y })
}

fn align_from(found: Option<&Value>) -> Option<Align>
    ensures { result ≡ option_and_then align_named (option_and_then as_str (option_map (λ v. view v.now) found.entry)) }
{
    match found?.as_str()? {
        "none" => Some(Align::Stretch),
        "xMinYMin" => keep(Side::Min, Side::Min),
        "xMidYMin" => keep(Side::Mid, Side::Min),
        "xMaxYMin" => keep(Side::Max, Side::Min),
        "xMinYMid" => keep(Side::Min, Side::Mid),
        "xMidYMid" => keep(Side::Mid, Side::Mid),
        "xMaxYMid" => keep(Side::Max, Side::Mid),
        "xMinYMax" => keep(Side::Min, Side::Max),
        "xMidYMax" => keep(Side::Mid, Side::Max),
        "xMaxYMax" => keep(Side::Max, Side::Max),
        _ => None,
    }
}

fn fit_from(found: Option<&Value>) -> Option<Fit>
    ensures { result ≡ option_and_then fit_named (option_and_then as_str (option_map (λ v. view v.now) found.entry)) }
{
    match found?.as_str()? {
        "meet" => Some(Fit::Meet),
        "slice" => Some(Fit::Slice),
        _ => None,
    }
}

// A viewBox, from a member of an array on: its place, its sides, its align and its fit.
#[tactic(auto, unfolding(crate::specs::Views::view_at))]
fn view_box_from(value: &Value, k: usize) -> Option<ViewBox>
    requires { k ≤ 8 }
    ensures value { result ≡ view_at k (view value.now) }
    ensures in_range { IfSome result IsViewBoxInRange }
{
    let (x, y) = place_from(value, k)?;
    let (w, h) = sizes_from(value, k + 2)?;
    let align = align_from(value.get(k + 4))?;
    let fit = fit_from(value.get(k + 5))?;
    Some(ViewBox {
        x,
        y,
        w,
        h,
        align,
        fit,
    })
}

// The viewBox of an svg, or that it has none.
#[tactic(auto, unfolding(crate::specs::Views::view_of))]
pub(crate) fn view_from(value: &Value) -> Option<Option<ViewBox>>
    ensures value { result ≡ view_of (view value.now) }
    ensures in_range { IfSome result (λ given. IfSome given IsViewBoxInRange) }
{
    if is_array_of(value, 1) {
        return Some(None);
    }
    if !is_array_of(value, 7) {
        return None;
    }
    let view = view_box_from(value, 1)?;
    Some(Some(view))
}

// The viewport of an inner svg with a viewBox, or without one.
fn port_with(given: Option<ViewBox>, value: &Value) -> Option<Port>
    requires { IfSome given IsViewBoxInRange }
    ensures value { result ≡ port_with given (view value.now) }
    ensures in_range { IfSome result IsPortInRange }
{
    let (x, y) = place_from(value, 1)?;
    let (w, h) = sizes_from(value, 3)?;
    Some(Port {
        x,
        y,
        w,
        h,
        view: given,
    })
}

// The viewport of an inner svg.
#[tactic(auto, unfolding(crate::specs::Views::port_of))]
pub(crate) fn port_from(value: &Value) -> Option<Port>
    ensures value { result ≡ port_of (view value.now) }
    ensures in_range { IfSome result IsPortInRange }
{
    if is_array_of(value, 5) {
        return port_with(None, value);
    }
    if !is_array_of(value, 11) {
        return None;
    }
    let given = view_box_from(value, 5)?;
    port_with(Some(given), value)
}
