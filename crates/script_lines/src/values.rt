// The values of a command: numbers, points, boxes and kinds, each from its JSON value.
ghost use Rattle.std.specs.Prelude.{◌≡◌, ◌^◌, ◌<◌, ◌≤◌, ◌≤ℤ◌, ◌==◌, IsTrue, IfOk, IfSome, option_map, option_and_then, All, pos, ◌+ℤ◌, int_le};
ghost use Rattle.serde_json.specs.Find.{as_str};
ghost use Rattle.serde_json.specs.View.{view, items_view};
ghost use Rattle.box_tree.specs.Edited.{IsId};
ghost use Rattle.box_tree.specs.Contents.{IsBoxInRange, IsSpotInRange, IsMaxInRange, IsWithin, IsSide};
ghost use Rattle.script_lines.specs.Numbers.{number_within as within, coordinate as coordinate_in, side as side_in, number_to as number_up_to, is_array_of as has_items, is_object_of as has_keys};
ghost use Rattle.script_lines.specs.Command.{spot_within as spot_in, anchor_of, max_of, viewport_side as viewport_side_in, box_at, box_of, each_box, boxes_of, id_of, kind_named};

use box_tree::{Kind, Piece, PieceList};
use fractions::Spot;
use serde_json::Value;
use std::alloc::{AllocError, Global};

/// The greatest coordinate, side, right and bottom edge, in units.
const LIMIT: i64 = 1 << 26;

/// The greatest side of the viewport, in units.
const VIEWPORT: i64 = 1 << 20;

#[tactic(auto, unfolding(crate::specs::Numbers::number_within))]
pub(crate) fn number_within(found: Option<&Value>, low: i64, high: i64) -> Option<i64>
    ensures value { result ≡ option_and_then (within low high) (option_map (λ v. view v.now) found.entry) }
    ensures in_range { IfSome result (λ n. (low ≤ℤ n) × (n ≤ℤ high)) }
{
    let number = found?.as_i64()?;
    if low <= number && number <= high {
        Some(number)
    } else {
        None
    }
}

pub(crate) fn coordinate(found: Option<&Value>) -> Option<i64>
    ensures value { result ≡ option_and_then coordinate_in (option_map (λ v. view v.now) found.entry) }
    ensures in_range { IfSome result (IsWithin 26) }
{
    number_within(found, -LIMIT, LIMIT)
}

pub(crate) fn side(found: Option<&Value>) -> Option<i64>
    ensures value { result ≡ option_and_then side_in (option_map (λ v. view v.now) found.entry) }
    ensures in_range { IfSome result (IsSide 26) }
{
    number_within(found, 0, LIMIT)
}

pub(crate) fn number_to(found: Option<&Value>, high: u32) -> Option<u32>
    ensures value { result ≡ option_and_then (number_up_to high) (option_map (λ v. view v.now) found.entry) }
    ensures in_range { IfSome result (λ n. n ≤ high) }
{
    let number = number_within(found, 0, i64::from(high))?;
    Some(number.unsigned_abs() as u32)
}

pub(crate) fn id_from(found: Option<&Value>) -> Option<u32>
    ensures value { result ≡ option_and_then id_of (option_map (λ v. view v.now) found.entry) }
    ensures in_range { IfSome result IsId }
{
    let number = number_within(found, 1, i64::from(u32::MAX))?;
    Some(number.unsigned_abs() as u32)
}

pub(crate) fn is_array_of(value: &Value, count: usize) -> bool
    ensures { result ≡ has_items count (view value.now) }
{
    match value.as_array() {
        Some(items) => items.as_slice().len() == count,
        None => false,
    }
}

pub(crate) fn is_object_of(value: &Value, count: usize) -> bool
    ensures { result ≡ has_keys count (view value.now) }
{
    match value.as_object() {
        Some(members) => members.len() == count,
        None => false,
    }
}

// Two numbers within two bounds, which are written `[x,y]`.
#[tactic(auto, unfolding(crate::specs::Command::spot_within))]
fn spot_within(found: Option<&Value>, low: i64, high: i64) -> Option<Spot>
    ensures value { result ≡ option_and_then (spot_in low high) (option_map (λ v. view v.now) found.entry) }
    ensures across { IfSome result (λ spot. (low ≤ℤ spot.x) × (spot.x ≤ℤ high)) }
    ensures down { IfSome result (λ spot. (low ≤ℤ spot.y) × (spot.y ≤ℤ high)) }
{
    let value = found?;
    if !is_array_of(value, 2) {
        return None;
    }
    let x = number_within(value.get(0), low, high)?;
    let y = number_within(value.get(1), low, high)?;
    Some(Spot { x, y })
}

pub(crate) fn anchor_from(found: Option<&Value>) -> Option<Spot>
    ensures value { result ≡ option_and_then anchor_of (option_map (λ v. view v.now) found.entry) }
    ensures in_range { IfSome result IsSpotInRange }
{
    spot_within(found, -LIMIT, LIMIT)
}

pub(crate) fn max_from(found: Option<&Value>) -> Option<Spot>
    ensures value { result ≡ option_and_then max_of (option_map (λ v. view v.now) found.entry) }
    ensures in_range { IfSome result IsMaxInRange }
{
    spot_within(found, 0, LIMIT)
}

pub(crate) fn viewport_side(found: Option<&Value>) -> Option<i64>
    ensures value { result ≡ option_and_then viewport_side_in (option_map (λ v. view v.now) found.entry) }
    ensures in_range { IfSome result (λ n. (pos 1 ≤ℤ n) × (n ≤ℤ pos (2 ^ 20))) }
{
    number_within(found, 1, VIEWPORT)
}

// Whether a side of a box ends within the limit.
fn ends_within(start: i64, length: i64) -> bool
    requires start { IsWithin 26 start }
    requires length { IsSide 26 length }
    ensures value { result ≡ int_le (start +ℤ length) (pos 67108864) }
    ensures in_range { IsTrue result → (start +ℤ length) ≤ℤ pos 67108864 }
{
    start + length <= LIMIT
}

// A box, where its right and bottom edges are within the limit.
fn box_within(line: u32, l: i64, t: i64, w: i64, h: i64) -> Option<Piece>
    requires line { line < 2 ^ 16 }
    requires left { IsWithin 26 l }
    requires top { IsWithin 26 t }
    requires width { IsSide 26 w }
    requires height { IsSide 26 h }
    ensures value { result ≡ box_at line l t w h }
    ensures in_range { IfSome result IsBoxInRange }
{
    let line = line as u16;
    if ends_within(l, w) && ends_within(t, h) {
        Some(Piece { line, l, t, w, h })
    } else {
        None
    }
}

#[tactic(auto, unfolding(crate::specs::Command::box_of))]
fn box_from(value: &Value) -> Option<Piece>
    ensures value { result ≡ box_of (view value.now) }
    ensures in_range { IfSome result IsBoxInRange }
{
    if !is_array_of(value, 5) {
        return None;
    }
    let line = number_to(value.get(0), 65535)?;
    let left = coordinate(value.get(1))?;
    let top = coordinate(value.get(2))?;
    let width = side(value.get(3))?;
    let height = side(value.get(4))?;
    box_within(line, left, top, width, height)
}

// Each item as a box.
fn each_box_from(alloc: Global, items: &[Value]) -> Result<Option<PieceList>, AllocError>
    ensures value { IfOk result (λ boxes. boxes ≡ each_box (items_view items.now)) }
    ensures in_range { IfOk result (λ boxes. IfSome boxes (All IsBoxInRange)) }
{
    let mut boxes = Vec::new(alloc);
    for item in items {
        let Some(piece) = box_from(item) else {
            return Ok(None);
        };
        boxes.push(piece)?;
    }
    Ok(Some(PieceList(boxes)))
}

pub(crate) fn boxes_from(
    alloc: Global,
    found: Option<&Value>,
) -> Result<Option<PieceList>, AllocError>
    ensures value { IfOk result (λ boxes. boxes ≡ option_and_then boxes_of (option_map (λ v. view v.now) found.entry)) }
    ensures in_range { IfOk result (λ boxes. IfSome boxes (All IsBoxInRange)) }
{
    match found.and_then(Value::as_array) {
        Some(items) => each_box_from(alloc, items),
        None => Ok(None),
    }
}

pub(crate) fn kind_from(found: Option<&Value>) -> Option<Kind>
    ensures { result ≡ option_and_then kind_named (option_and_then as_str (option_map (λ v. view v.now) found.entry)) }
{
    match found?.as_str()? {
        "block" => Some(Kind::Block),
        "inline" => Some(Kind::Inline),
        "inline-block" => Some(Kind::InlineBlock),
        "image" => Some(Kind::Image),
        "text" => Some(Kind::Text),
        "map" => Some(Kind::Map),
        "area" => Some(Kind::Area),
        "svg" => Some(Kind::Svg),
        "group" => Some(Kind::Group),
        "shape" => Some(Kind::Shape),
        "inner" => Some(Kind::Inner),
        _ => None,
    }
}
