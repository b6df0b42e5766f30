// The rows of the ops, from a JSON object to a command.
ghost use Rattle.std.specs.Prelude.{◌≡◌, IfOk, IfSome, option_map, option_and_then};
ghost use Rattle.serde_json.specs.Find.{as_str};
ghost use Rattle.serde_json.specs.View.{view};
ghost use Rattle.computed_style.specs.Ranges.{IsStyleInRange};
ghost use Rattle.box_tree.specs.Contents.{IsSpotInRange, IsMaxInRange, IsWithin};
ghost use Rattle.box_tree.specs.Edited.{IsId};
ghost use Rattle.script_lines.specs.Command.{new_place, new_node, add_of, remove_of, move_of, layout, place_of, restyle_of, reshape_of, resize_of, point_fields, scroll_of, scroll_view_of, point_of, hit_of, top_of, pointer_of, refresh_of, op_named, row_of, command_reading, IsAskable};

use crate::command::Command;
use crate::forms::form_from;
use crate::style::style_from;
use crate::values::{
    anchor_from, boxes_from, coordinate, id_from, is_object_of, kind_from, max_from, number_to,
    viewport_side,
};
use box_tree::{Edit, Kind};
use computed_style::Style;
use fractions::Spot;
use serde_json::Value;
use std::alloc::{AllocError, Global};

// What an op asks for.
#[derive(Clone, Copy)]
pub(crate) enum Op {
    Add,
    Remove,
    Move,
    Place,
    Style,
    Shape,
    Scroll,
    ScrollView,
    Resize,
    Hit,
    Top,
    Point,
    Refresh,
}

// The parent, the place, the kind and the style of a new node.
#[tactic(auto, unfolding(crate::specs::Command::new_node))]
fn node_from(alloc: Global, value: &Value) -> Result<Option<(u32, u32, Kind, Style)>, AllocError>
    ensures value { IfOk result (λ node. node ≡ new_node (view value.now)) }
    ensures in_range { IfOk result (λ node. IfSome node (λ n. IsStyleInRange n.3)) }
{
    let Some((parent, at, kind)) = place_of_node(value) else {
        return Ok(None);
    };
    let Some(style) = style_from(alloc, value.get("style"))? else {
        return Ok(None);
    };
    Ok(Some((parent, at, kind, style)))
}

// The parent, the place and the kind of a new node.
#[tactic(auto, unfolding(crate::specs::Command::new_place))]
fn place_of_node(value: &Value) -> Option<(u32, u32, Kind)>
    ensures { result ≡ new_place (view value.now) }
{
    let parent = number_to(value.get("parent"), u32::MAX)?;
    let at = number_to(value.get("at"), u32::MAX)?;
    let kind = kind_from(value.get("kind"))?;
    Some((parent, at, kind))
}

#[tactic(auto, unfolding(crate::specs::Command::add_of))]
fn add_from(alloc: Global, value: &Value) -> Result<Option<Command>, AllocError>
    ensures value { IfOk result (λ command. command ≡ add_of (view value.now)) }
    ensures in_range { IfOk result (λ command. IfSome command IsAskable) }
{
    if !is_object_of(value, 6) {
        return Ok(None);
    }
    let Some((parent, at, kind, style)) = node_from(alloc, value)? else {
        return Ok(None);
    };
    let Some(boxes) = boxes_from(alloc, value.get("boxes"))? else {
        return Ok(None);
    };
    Ok(Some(Command::Edit(Edit::Add {
        parent,
        at,
        kind,
        boxes,
        style,
    })))
}

#[tactic(auto, unfolding(crate::specs::Command::remove_of))]
fn remove_from(value: &Value) -> Option<Command>
    ensures value { result ≡ remove_of (view value.now) }
    ensures in_range { IfSome result IsAskable }
{
    if !is_object_of(value, 2) {
        return None;
    }
    let id = id_from(value.get("id"))?;
    Some(Command::Edit(Edit::Remove { id }))
}

#[tactic(auto, unfolding(crate::specs::Command::move_of))]
fn move_from(value: &Value) -> Option<Command>
    ensures value { result ≡ move_of (view value.now) }
    ensures in_range { IfSome result IsAskable }
{
    if !is_object_of(value, 4) {
        return None;
    }
    let id = id_from(value.get("id"))?;
    let parent = number_to(value.get("parent"), u32::MAX)?;
    let at = number_to(value.get("at"), u32::MAX)?;
    Some(Command::Edit(Edit::Move { id, parent, at }))
}

#[tactic(auto, unfolding(crate::specs::Command::place_of))]
fn place_from(alloc: Global, value: &Value) -> Result<Option<Command>, AllocError>
    ensures value { IfOk result (λ command. command ≡ place_of (view value.now)) }
    ensures in_range { IfOk result (λ command. IfSome command IsAskable) }
{
    if !is_object_of(value, 5) {
        return Ok(None);
    }
    let Some((id, anchor, max)) = layout_from(value) else {
        return Ok(None);
    };
    let Some(boxes) = boxes_from(alloc, value.get("boxes"))? else {
        return Ok(None);
    };
    Ok(Some(Command::Edit(Edit::Place {
        id,
        anchor,
        boxes,
        max,
    })))
}

// The id, the anchor and the greatest scroll of a node that is placed.
#[tactic(auto, unfolding(crate::specs::Command::layout))]
fn layout_from(value: &Value) -> Option<(u32, Spot, Spot)>
    ensures value { result ≡ layout (view value.now) }
    ensures id { IfSome result (λ l. IsId l.0) }
    ensures anchor { IfSome result (λ l. IsSpotInRange l.1) }
    ensures max { IfSome result (λ l. IsMaxInRange l.2) }
{
    let id = id_from(value.get("id"))?;
    let anchor = anchor_from(value.get("anchor"))?;
    let max = max_from(value.get("max"))?;
    Some((id, anchor, max))
}

#[tactic(auto, unfolding(crate::specs::Command::restyle_of))]
fn restyle_from(alloc: Global, value: &Value) -> Result<Option<Command>, AllocError>
    ensures value { IfOk result (λ command. command ≡ restyle_of (view value.now)) }
    ensures in_range { IfOk result (λ command. IfSome command IsAskable) }
{
    if !is_object_of(value, 3) {
        return Ok(None);
    }
    let Some(id) = id_from(value.get("id")) else {
        return Ok(None);
    };
    let Some(style) = style_from(alloc, value.get("style"))? else {
        return Ok(None);
    };
    Ok(Some(Command::Edit(Edit::Restyle { id, style })))
}

#[tactic(auto, unfolding(crate::specs::Command::reshape_of))]
fn reshape_from(alloc: Global, value: &Value) -> Result<Option<Command>, AllocError>
    ensures value { IfOk result (λ command. command ≡ reshape_of (view value.now)) }
    ensures in_range { IfOk result (λ command. IfSome command IsAskable) }
{
    if !is_object_of(value, 3) {
        return Ok(None);
    }
    let Some(id) = id_from(value.get("id")) else {
        return Ok(None);
    };
    let Ok(found) = form_from(alloc, value.get("shape")) else {
        return Err(AllocError);
    };
    let Some(form) = found else {
        return Ok(None);
    };
    Ok(Some(Command::Edit(Edit::Reshape { id, form })))
}

#[tactic(auto, unfolding(crate::specs::Command::resize_of))]
fn resize_from(value: &Value) -> Option<Command>
    ensures value { result ≡ resize_of (view value.now) }
    ensures in_range { IfSome result IsAskable }
{
    if !is_object_of(value, 4) {
        return None;
    }
    let w = viewport_side(value.get("w"))?;
    let h = viewport_side(value.get("h"))?;
    let max = max_from(value.get("max"))?;
    Some(Command::Edit(Edit::Resize { w, h, max }))
}

// A point.
#[tactic(auto, unfolding(crate::specs::Command::point_fields))]
fn coordinates(value: &Value) -> Option<(i64, i64)>
    ensures value { result ≡ point_fields (view value.now) }
    ensures in_range { IfSome result (λ point. IsWithin 26 point.0 × IsWithin 26 point.1) }
{
    let x = coordinate(value.get("x"))?;
    let y = coordinate(value.get("y"))?;
    Some((x, y))
}

#[tactic(auto, unfolding(crate::specs::Command::scroll_of))]
fn scroll_from(value: &Value) -> Option<Command>
    ensures value { result ≡ scroll_of (view value.now) }
    ensures in_range { IfSome result IsAskable }
{
    if !is_object_of(value, 4) {
        return None;
    }
    let id = id_from(value.get("id"))?;
    let (x, y) = coordinates(value)?;
    Some(Command::Edit(Edit::Scroll { id, x, y }))
}

fn scroll_view_from(value: &Value) -> Option<Command>
    ensures value { result ≡ scroll_view_of (view value.now) }
    ensures in_range { IfSome result IsAskable }
{
    let (x, y) = point_from(value)?;
    Some(Command::Edit(Edit::ScrollView { x, y }))
}

// The point of an op that names a point alone.
#[tactic(auto, unfolding(crate::specs::Command::point_of))]
fn point_from(value: &Value) -> Option<(i64, i64)>
    ensures value { result ≡ point_of (view value.now) }
    ensures in_range { IfSome result (λ point. IsWithin 26 point.0 × IsWithin 26 point.1) }
{
    if !is_object_of(value, 3) {
        return None;
    }
    coordinates(value)
}

fn hit_from(value: &Value) -> Option<Command>
    ensures value { result ≡ hit_of (view value.now) }
    ensures in_range { IfSome result IsAskable }
{
    let (x, y) = point_from(value)?;
    Some(Command::Hit { x, y })
}

fn top_from(value: &Value) -> Option<Command>
    ensures value { result ≡ top_of (view value.now) }
    ensures in_range { IfSome result IsAskable }
{
    let (x, y) = point_from(value)?;
    Some(Command::Top { x, y })
}

fn pointer_from(value: &Value) -> Option<Command>
    ensures value { result ≡ pointer_of (view value.now) }
    ensures in_range { IfSome result IsAskable }
{
    let (x, y) = point_from(value)?;
    Some(Command::Point { x, y })
}

fn refresh_from(value: &Value) -> Option<Command>
    ensures value { result ≡ refresh_of (view value.now) }
    ensures in_range { IfSome result IsAskable }
{
    if is_object_of(value, 1) {
        Some(Command::Refresh)
    } else {
        None
    }
}

// An op by its name.
fn op_from(found: Option<&Value>) -> Option<Op>
    ensures { result ≡ option_and_then op_named (option_and_then as_str (option_map (λ v. view v.now) found.entry)) }
{
    match found?.as_str()? {
        "add" => Some(Op::Add),
        "remove" => Some(Op::Remove),
        "move" => Some(Op::Move),
        "place" => Some(Op::Place),
        "style" => Some(Op::Style),
        "shape" => Some(Op::Shape),
        "scroll" => Some(Op::Scroll),
        "scrollview" => Some(Op::ScrollView),
        "resize" => Some(Op::Resize),
        "hit" => Some(Op::Hit),
        "top" => Some(Op::Top),
        "point" => Some(Op::Point),
        "refresh" => Some(Op::Refresh),
        _ => None,
    }
}

// The command by the row of an op.
fn row_from(alloc: Global, op: Op, value: &Value) -> Result<Option<Command>, AllocError>
    ensures value { IfOk result (λ command. command ≡ row_of op (view value.now)) }
    ensures in_range { IfOk result (λ command. IfSome command IsAskable) }
{
    match op {
        Op::Add => add_from(alloc, value),
        Op::Remove => Ok(remove_from(value)),
        Op::Move => Ok(move_from(value)),
        Op::Place => place_from(alloc, value),
        Op::Style => restyle_from(alloc, value),
        Op::Shape => reshape_from(alloc, value),
        Op::Scroll => Ok(scroll_from(value)),
        Op::ScrollView => Ok(scroll_view_from(value)),
        Op::Resize => Ok(resize_from(value)),
        Op::Hit => Ok(hit_from(value)),
        Op::Top => Ok(top_from(value)),
        Op::Point => Ok(pointer_from(value)),
        Op::Refresh => Ok(refresh_from(value)),
    }
}

/// The command that a JSON value spells.
#[tactic(auto, unfolding(crate::specs::Command::command_reading))]
pub fn command_from(alloc: Global, value: &Value) -> Result<Option<Command>, AllocError>
    ensures value { IfOk result (λ command. command ≡ command_reading (view value.now)) }
    ensures in_range { IfOk result (λ command. IfSome command IsAskable) }
{
    match op_from(value.get("op")) {
        Some(op) => row_from(alloc, op, value),
        None => Ok(None),
    }
}
