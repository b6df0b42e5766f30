// The style that a JSON object spells, each of its keys by its row.
ghost use Rattle.std.specs.Prelude.{◌≡◌, ◌≤◌, ◌≤ℤ◌, pos, negsuc, All, IfNone, IfOk, IfSome, IsTrue, OnSome, Some, None, false, option_map, option_and_then};
ghost use Rattle.serde_json.specs.Find.{as_str};
ghost use Rattle.serde_json.specs.View.{view, members_view};
ghost use Rattle.computed_style.specs.Defaults.{empty_style};
ghost use Rattle.computed_style.specs.Ranges.{IsSide, IsStyleInRange};
ghost use Rattle.script_lines.specs.Transform.{transform_of};
ghost use Rattle.script_lines.specs.Style.{position_named, floats_named, block_named, overflow_named, z_of, opacity_of, width_or_radius as width_or_radius_of, border_of, corner_at, radii_of, with_box_key, with_plain_key, with_key, each_key, style_of};

use crate::inherited::declare_inherited;
use crate::transform::{origin_from, transform_from};
use crate::values::{is_array_of, number_to, number_within};
use computed_style::{Overflow, Position, Style};
use serde_json::{Map, Value};
use std::alloc::{AllocError, Global};

// The greatest opacity, in thousandths.
const OPAQUE: u32 = 1000;

// The greatest width of a border, and the greatest radius of a corner, in units.
const WIDEST: i64 = 1 << 20;

// The style that an object spells.
pub(crate) fn style_from(alloc: Global, found: Option<&Value>) -> Result<Option<Style>, AllocError>
    ensures value { IfOk result (λ style. style ≡ option_and_then style_of (option_map (λ v. view v.now) found.entry)) }
    ensures in_range { IfOk result (λ style. IfSome style IsStyleInRange) }
{
    match found.and_then(Value::as_object) {
        Some(members) => declared(alloc, members),
        None => Ok(None),
    }
}

// The style with each of these keys, over the one in which nothing is declared.
fn declared(alloc: Global, members: &Map<String, Value>) -> Result<Option<Style>, AllocError>
    ensures value { IfOk result (λ style. style ≡ each_key (members_view members.now.entries) empty_style) }
    ensures in_range { IfOk result (λ style. IfSome style IsStyleInRange) }
{
    let mut style = Style::new(alloc);
    for (key, value) in members.iter() {
        if !declare(alloc, &mut style, key.as_str(), value)? {
            return Ok(None);
        }
    }
    Ok(Some(style))
}

// The style gets the value of one key more, where there is one, which is the answer.
#[tactic(auto, unfolding(crate::specs::Style::with_key))]
fn declare(alloc: Global, style: &mut Style, key: &str, value: &Value) -> Result<bool, AllocError>
    requires { IsStyleInRange style.old }
    ensures given { IfOk result (λ is. IsTrue is → with_key key.now (view value.now) style.old ≡ Some style.new) }
    ensures none { IfOk result (λ is. is ≡ false → with_key key.now (view value.now) style.old ≡ None) }
    ensures in_range { IsStyleInRange style.new }
{
    match key {
        "transform" => declare_transform(alloc, style, value),
        _ => Ok(declare_plain(style, key, value).is_some()),
    }
}

fn declare_transform(alloc: Global, style: &mut Style, value: &Value) -> Result<bool, AllocError>
    requires { IsStyleInRange style.old }
    ensures given { IfOk result (λ is. IsTrue is
        → option_map (λ functions. record style.old { transform = functions }) (transform_of (view value.now)) ≡ Some style.new) }
    ensures none { IfOk result (λ is. is ≡ false → transform_of (view value.now) ≡ None) }
    ensures in_range { IsStyleInRange style.new }
{
    let Some(transform) = transform_from(alloc, value)? else {
        return Ok(false);
    };
    style.transform = transform;
    Ok(true)
}

// The style gets the value of one key more that takes no list of functions; where there is none, it stays.
#[tactic(auto, unfolding(crate::specs::Style::with_plain_key))]
fn declare_plain(style: &mut Style, key: &str, value: &Value) -> Option<()>
    requires { IsStyleInRange style.old }
    ensures given { OnSome result (with_plain_key key.now (view value.now) style.old ≡ Some style.new) }
    ensures none { IfNone result (with_plain_key key.now (view value.now) style.old ≡ None) }
    ensures in_range { IsStyleInRange style.new }
{
    match key {
        "position" => style.position = position_from(value)?,
        "float" => style.floats = floats_from(value)?,
        "z" => style.z = Some(z_from(value)?),
        "opacity" => style.opacity = opacity_from(value)?,
        "display" => style.display_block = block_from(value)?,
        _ => return declare_box(style, key, value),
    }
    Some(())
}

// The style gets the value of one key more that speaks of the box; where there is none, it stays.
#[tactic(auto, unfolding(crate::specs::Style::with_box_key))]
fn declare_box(style: &mut Style, key: &str, value: &Value) -> Option<()>
    requires { IsStyleInRange style.old }
    ensures given { OnSome result (with_box_key key.now (view value.now) style.old ≡ Some style.new) }
    ensures none { IfNone result (with_box_key key.now (view value.now) style.old ≡ None) }
    ensures in_range { IsStyleInRange style.new }
{
    match key {
        "origin" => style.origin = Some(origin_from(value)?),
        "overflow" => style.overflow = Some(overflow_from(value)?),
        "border" => style.border = border_from(value)?,
        "radii" => style.radii = radii_from(value)?,
        _ => return declare_inherited(style, key, value),
    }
    Some(())
}

fn position_from(value: &Value) -> Option<Position>
    ensures { result ≡ option_and_then position_named (as_str (view value.now)) }
{
    match value.as_str()? {
        "static" => Some(Position::Static),
        "relative" => Some(Position::Relative),
        "absolute" => Some(Position::Absolute),
        "fixed" => Some(Position::Fixed),
        _ => None,
    }
}

fn floats_from(value: &Value) -> Option<bool>
    ensures { result ≡ option_and_then floats_named (as_str (view value.now)) }
{
    match value.as_str()? {
        "none" => Some(false),
        "left" | "right" => Some(true),
        _ => None,
    }
}

fn block_from(value: &Value) -> Option<bool>
    ensures { result ≡ option_and_then block_named (as_str (view value.now)) }
{
    match value.as_str()? {
        "inline" => Some(false),
        "block" => Some(true),
        _ => None,
    }
}

fn overflow_from(value: &Value) -> Option<Overflow>
    ensures { result ≡ option_and_then overflow_named (as_str (view value.now)) }
{
    match value.as_str()? {
        "visible" => Some(Overflow::Visible),
        "hidden" | "scroll" => Some(Overflow::Clip),
        "auto" => Some(Overflow::Auto),
        _ => None,
    }
}

fn z_from(value: &Value) -> Option<i32>
    ensures { result ≡ z_of (view value.now) }
{
    let number = number_within(Some(value), i64::from(i32::MIN), i64::from(i32::MAX))?;
    Some(number as i32)
}

fn opacity_from(value: &Value) -> Option<u16>
    ensures value { result ≡ opacity_of (view value.now) }
    ensures in_range { IfSome result (λ opacity. opacity ≤ 1000) }
{
    let number = number_to(Some(value), OPAQUE)?;
    Some(number as u16)
}

fn width_or_radius(found: Option<&Value>) -> Option<i64>
    ensures value { result ≡ option_and_then width_or_radius_of (option_map (λ v. view v.now) found.entry) }
    ensures in_range { IfSome result (IsSide 20) }
{
    number_within(found, 0, WIDEST)
}

// The widths of the borders, which are written `[top,right,bottom,left]`.
#[tactic(auto, unfolding(crate::specs::Style::border_of))]
fn border_from(value: &Value) -> Option<[i64; 4]>
    ensures value { result ≡ border_of (view value.now) }
    ensures in_range { IfSome result (All (IsSide 20)) }
{
    if !is_array_of(value, 4) {
        return None;
    }
    let top = width_or_radius(value.get(0))?;
    let right = width_or_radius(value.get(1))?;
    let bottom = width_or_radius(value.get(2))?;
    let left = width_or_radius(value.get(3))?;
    Some([top, right, bottom, left])
}

// The radii of a corner across and down, from a place on.
#[tactic(auto, unfolding(crate::specs::Style::corner_at))]
fn corner_from(value: &Value, place: usize) -> Option<(i64, i64)>
    requires { place ≤ 6 }
    ensures value { result ≡ corner_at place (view value.now) }
    ensures in_range { IfSome result (λ corner. IsSide 20 corner.0 × IsSide 20 corner.1) }
{
    let across = width_or_radius(value.get(place))?;
    let down = width_or_radius(value.get(place + 1))?;
    Some((across, down))
}

// The radii of the corners, which are written as eight numbers.
#[tactic(auto, unfolding(crate::specs::Style::radii_of))]
fn radii_from(value: &Value) -> Option<[i64; 8]>
    ensures value { result ≡ radii_of (view value.now) }
    ensures in_range { IfSome result (All (IsSide 20)) }
{
    if !is_array_of(value, 8) {
        return None;
    }
    let top_left = corner_from(value, 0)?;
    let top_right = corner_from(value, 2)?;
    let bottom_right = corner_from(value, 4)?;
    let bottom_left = corner_from(value, 6)?;
    Some([
        top_left.0,
        top_left.1,
        top_right.0,
        top_right.1,
        bottom_right.0,
        bottom_right.1,
        bottom_left.0,
        bottom_left.1,
    ])
}
