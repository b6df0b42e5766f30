// The keys of a style that are inherited, each by its row.
ghost use Rattle.std.specs.Prelude.{◌≡◌, IfNone, OnSome, Some, None, option_and_then};
ghost use Rattle.serde_json.specs.Find.{as_str};
ghost use Rattle.serde_json.specs.View.{view};
ghost use Rattle.computed_style.specs.Ranges.{IsStyleInRange};
ghost use Rattle.script_lines.specs.Inherited.{visibility_named, pointer_named, paint_named, rule_named, ends_named, with_inherited_key};

use crate::values::side;
use computed_style::{Ends, PointerEvents, Rule, Style};
use serde_json::Value;

// The style gets the value of one inherited key more; where there is none, it stays.
#[tactic(auto, unfolding(crate::specs::Inherited::with_inherited_key))]
pub(crate) fn declare_inherited(style: &mut Style, key: &str, value: &Value) -> Option<()>
    requires { IsStyleInRange style.old }
    ensures given { OnSome result (with_inherited_key key.now (view value.now) style.old ≡ Some style.new) }
    ensures none { IfNone result (with_inherited_key key.now (view value.now) style.old ≡ None) }
    ensures in_range { IsStyleInRange style.new }
{
    match key {
        "visibility" => style.visible = Some(visibility_from(value)?),
        "pointer-events" => style.pointer = Some(pointer_from(value)?),
        "fill" => style.fill = Some(paint_from(value)?),
        "stroke" => style.stroke = Some(paint_from(value)?),
        "stroke-width" => style.stroke_width = Some(side(Some(value))?),
        "fill-rule" => style.rule = Some(rule_from(value)?),
        "stroke-linecap" => style.ends = Some(ends_from(value)?),
        _ => return None,
    }
    Some(())
}

fn visibility_from(value: &Value) -> Option<bool>
    ensures { result ≡ option_and_then visibility_named (as_str (view value.now)) }
{
    match value.as_str()? {
        "visible" => Some(true),
        "hidden" | "collapse" => Some(false),
        _ => None,
    }
}

fn pointer_from(value: &Value) -> Option<PointerEvents>
    ensures { result ≡ option_and_then pointer_named (as_str (view value.now)) }
{
    match value.as_str()? {
        "auto" => Some(PointerEvents::Auto),
        "none" => Some(PointerEvents::None),
        "visiblePainted" => Some(PointerEvents::VisiblePainted),
        "visibleFill" => Some(PointerEvents::VisibleFill),
        "visibleStroke" => Some(PointerEvents::VisibleStroke),
        "visible" => Some(PointerEvents::Visible),
        "painted" => Some(PointerEvents::Painted),
        "fill" => Some(PointerEvents::Fill),
        "stroke" => Some(PointerEvents::Stroke),
        "all" => Some(PointerEvents::All),
        _ => None,
    }
}

fn paint_from(value: &Value) -> Option<bool>
    ensures { result ≡ option_and_then paint_named (as_str (view value.now)) }
{
    match value.as_str()? {
        "none" => Some(false),
        "paint" => Some(true),
        _ => None,
    }
}

fn rule_from(value: &Value) -> Option<Rule>
    ensures { result ≡ option_and_then rule_named (as_str (view value.now)) }
{
    match value.as_str()? {
        "nonzero" => Some(Rule::NonZero),
        "evenodd" => Some(Rule::EvenOdd),
        _ => None,
    }
}

fn ends_from(value: &Value) -> Option<Ends>
    ensures { result ≡ option_and_then ends_named (as_str (view value.now)) }
{
    match value.as_str()? {
        "butt" => Some(Ends::Butt),
        "round" => Some(Ends::Round),
        "square" => Some(Ends::Square),
        _ => None,
    }
}
