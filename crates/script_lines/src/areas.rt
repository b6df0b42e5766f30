// What an area of an image map covers, as a JSON array spells it.
ghost use Rattle.std.specs.Prelude.{◌≡◌, ◌≤◌, ◌^◌, nat_le, IfOk, IfSome, IsTrue, length, option_map, option_and_then};
ghost use Rattle.std.specs.List.{All};
ghost use Rattle.serde_json.specs.Events.{items_len};
ghost use Rattle.serde_json.specs.Find.{as_array};
ghost use Rattle.serde_json.specs.View.{view, items_view};
ghost use Rattle.image_maps.specs.Area.{IsNumber};
ghost use Rattle.script_lines.specs.Areas.{area_number, each_number, numbers_of, area_of, default_of};

use crate::values::{is_array_of, number_within};
use image_maps::{AreaKind, AreaShape, OutOfMemory};
use serde_json::Value;
use std::alloc::{AllocError, Global};
use std::marker::Model;

/// The greatest number of an area, in units.
const FURTHEST: i64 = 1 << 20;

/// The most numbers of an area.
const MOST: usize = 1 << 20;

// Numbers in their order, which clauses see as a list.
#[derive(Drop)]
pub(crate) struct Numbers(Vec<i64>);

impl Model for Numbers {
    ghost use Rattle.std.specs.Prelude.{List, ℤ};

    ghost Value = { List ℤ };

    ghost view = { λ numbers. numbers.0.items };
}

fn area_number_from(value: &Value) -> Option<i64>
    ensures value { result ≡ area_number (view value.now) }
    ensures in_range { IfSome result IsNumber }
{
    number_within(Some(value), -FURTHEST, FURTHEST)
}

// Each item as a number.
fn each_number_from(alloc: Global, items: &[Value]) -> Result<Option<Numbers>, AllocError>
    ensures value { IfOk result (λ numbers. numbers ≡ each_number (items_view items.now)) }
    ensures in_range { IfOk result (λ numbers. IfSome numbers (All IsNumber)) }
    ensures count { IfOk result (λ numbers. IfSome numbers (λ all. length all ≤ length items.now)) }
{
    let mut numbers = Vec::new(alloc);
    for item in items {
        let Some(number) = area_number_from(item) else {
            return Ok(None);
        };
        numbers.push(number)?;
    }
    Ok(Some(Numbers(numbers)))
}

fn are_few(items: &[Value]) -> bool
    ensures value { result ≡ nat_le (items_len (items_view items.now)) (2 ^ 20) }
    ensures within { IsTrue result → length items.now ≤ 2 ^ 20 }
{
    items.len() <= MOST
}

// Any number of numbers that a line can hold.
fn numbers_within(alloc: Global, items: &[Value]) -> Result<Option<Numbers>, AllocError>
    ensures value { IfOk result (λ numbers. numbers ≡ numbers_of (items_view items.now)) }
    ensures in_range { IfOk result (λ numbers. IfSome numbers (All IsNumber)) }
    ensures count { IfOk result (λ numbers. IfSome numbers (λ all. length all ≤ 2 ^ 20)) }
{
    if !are_few(items) {
        return Ok(None);
    }
    each_number_from(alloc, items)
}

fn numbers_from(alloc: Global, found: Option<&Value>) -> Result<Option<Numbers>, AllocError>
    ensures value { IfOk result (λ numbers. numbers
        ≡ option_and_then numbers_of (option_and_then as_array (option_map (λ v. view v.now) found.entry))) }
    ensures in_range { IfOk result (λ numbers. IfSome numbers (All IsNumber)) }
    ensures count { IfOk result (λ numbers. IfSome numbers (λ all. length all ≤ 2 ^ 20)) }
{
    match found.and_then(Value::as_array) {
        Some(items) => numbers_within(alloc, items),
        None => Ok(None),
    }
}

// An area of a kind with a list of numbers.
#[tactic(auto, unfolding(crate::specs::Areas::area_of))]
pub(crate) fn area_from(
    alloc: Global,
    kind: AreaKind,
    value: &Value,
) -> Result<Option<AreaShape>, OutOfMemory>
    ensures { IfOk result (λ area. area ≡ area_of kind (view value.now)) }
{
    if !is_array_of(value, 2) {
        return Ok(None);
    }
    let Some(numbers) = numbers_from(alloc, value.get(1))? else {
        return Ok(None);
    };
    Ok(Some(AreaShape::of(alloc, kind, &numbers.0)?))
}

// The area that covers everything.
#[tactic(auto, unfolding(crate::specs::Areas::default_of))]
pub(crate) fn default_from(alloc: Global, value: &Value) -> Result<Option<AreaShape>, OutOfMemory>
    ensures { IfOk result (λ area. area ≡ default_of (view value.now)) }
{
    if !is_array_of(value, 1) {
        return Ok(None);
    }
    Ok(Some(AreaShape::of(alloc, AreaKind::Default, &[])?))
}
