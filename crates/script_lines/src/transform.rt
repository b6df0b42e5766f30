// The functions of a transform that a JSON array spells, and their origin.
ghost use Rattle.std.specs.Prelude.{◌≡◌, ◌≤◌, ◌≤ℤ◌, nat_le, All, IfOk, IfSome, IsTrue, option_map, option_and_then, length};
ghost use Rattle.serde_json.specs.Events.{items_len};
ghost use Rattle.serde_json.specs.View.{view, items_view};
ghost use Rattle.computed_style.specs.Ranges.{IsWithin, IsDenominator, IsLinearPartInRange, IsTranslationInRange, IsFunctionInRange};
ghost use Rattle.script_lines.specs.Transform.{factor_of, shift_of, denominator_of, linear_part, translation, matrix_of, translate_of, scale_of, quarter_of, function_of, each_function, functions_of, transform_of, origin_of};

use crate::values::{coordinate, is_array_of, number_to, number_within};
use computed_style::{Function, Functions};
use serde_json::Value;
use std::alloc::{AllocError, Global};

/// The most functions of a transform.
const FUNCTIONS: usize = 16;

/// The greatest number of a linear part, and the greatest denominator.
const FACTOR: i64 = 1 << 30;

/// The greatest shift of a matrix, times its denominator, in units.
const SHIFT: i64 = 1 << 40;

fn factor_from(found: Option<&Value>) -> Option<i64>
    ensures value { result ≡ option_and_then factor_of (option_map (λ v. view v.now) found.entry) }
    ensures in_range { IfSome result (IsWithin 30) }
{
    number_within(found, -FACTOR, FACTOR)
}

fn shift_from(found: Option<&Value>) -> Option<i64>
    ensures value { result ≡ option_and_then shift_of (option_map (λ v. view v.now) found.entry) }
    ensures in_range { IfSome result (IsWithin 40) }
{
    number_within(found, -SHIFT, SHIFT)
}

fn denominator_from(found: Option<&Value>) -> Option<i64>
    ensures value { result ≡ option_and_then denominator_of (option_map (λ v. view v.now) found.entry) }
    ensures in_range { IfSome result IsDenominator }
{
    number_within(found, 1, FACTOR)
}

// The numbers a to d of a matrix.
#[tactic(auto, unfolding(crate::specs::Transform::linear_part))]
fn linear_part_from(value: &Value) -> Option<(i64, i64, i64, i64)>
    ensures value { result ≡ linear_part (view value.now) }
    ensures in_range { IfSome result (λ l. IsLinearPartInRange l.0 l.1 l.2 l.3) }
{
    let a = factor_from(value.get(1))?;
    let b = factor_from(value.get(2))?;
    let c = factor_from(value.get(3))?;
    let d = factor_from(value.get(4))?;
    Some((a, b, c, d))
}

// The numbers e, f and q of a matrix.
#[tactic(auto, unfolding(crate::specs::Transform::translation))]
fn translation_from(value: &Value) -> Option<(i64, i64, i64)>
    ensures value { result ≡ translation (view value.now) }
    ensures in_range { IfSome result (λ t. IsTranslationInRange t.0 t.1 t.2) }
{
    let e = shift_from(value.get(5))?;
    let f = shift_from(value.get(6))?;
    let q = denominator_from(value.get(7))?;
    Some((e, f, q))
}

#[tactic(auto, unfolding(crate::specs::Transform::matrix_of))]
fn matrix_from(value: &Value) -> Option<Function>
    ensures value { result ≡ matrix_of (view value.now) }
    ensures in_range { IfSome result IsFunctionInRange }
{
    if !is_array_of(value, 8) {
        return None;
    }
    let (a, b, c, d) = linear_part_from(value)?;
    let (e, f, q) = translation_from(value)?;
    Some(Function::Matrix {
        a,
        b,
        c,
        d,
        e,
        f,
        q,
    })
}

#[tactic(auto, unfolding(crate::specs::Transform::translate_of))]
fn translate_from(value: &Value) -> Option<Function>
    ensures value { result ≡ translate_of (view value.now) }
    ensures in_range { IfSome result IsFunctionInRange }
{
    if !is_array_of(value, 3) {
        return None;
    }
    let x = coordinate(value.get(1))?;
    let y = coordinate(value.get(2))?;
    Some(Function::Translate { x, y })
}

#[tactic(auto, unfolding(crate::specs::Transform::scale_of))]
fn scale_from(value: &Value) -> Option<Function>
    ensures value { result ≡ scale_of (view value.now) }
    ensures in_range { IfSome result IsFunctionInRange }
{
    if !is_array_of(value, 4) {
        return None;
    }
    let x = factor_from(value.get(1))?;
    let y = factor_from(value.get(2))?;
    let q = denominator_from(value.get(3))?;
    Some(Function::Scale { x, y, q })
}

#[tactic(auto, unfolding(crate::specs::Transform::quarter_of))]
fn quarter_from(value: &Value) -> Option<Function>
    ensures value { result ≡ quarter_of (view value.now) }
    ensures in_range { IfSome result IsFunctionInRange }
{
    if !is_array_of(value, 2) {
        return None;
    }
    let turns = number_to(value.get(1), 3)?;
    Some(Function::Quarter { turns: turns as u8 })
}

// A function, whose name stands first.
#[tactic(auto, unfolding(crate::specs::Transform::function_of))]
fn function_from(value: &Value) -> Option<Function>
    ensures value { result ≡ function_of (view value.now) }
    ensures in_range { IfSome result IsFunctionInRange }
{
    match value.get(0)?.as_str()? {
        "matrix" => matrix_from(value),
        "translate" => translate_from(value),
        "scale" => scale_from(value),
        "quarter" => quarter_from(value),
        _ => None,
    }
}

// Each item as a function.
fn each_function_from(alloc: Global, items: &[Value]) -> Result<Option<Functions>, AllocError>
    ensures value { IfOk result (λ functions. functions ≡ each_function (items_view items.now)) }
    ensures in_range { IfOk result (λ functions. IfSome functions (All IsFunctionInRange)) }
    ensures count { IfOk result (λ functions. IfSome functions (λ all. length all ≤ length items.now)) }
{
    let mut functions = Vec::new(alloc);
    for item in items {
        let Some(function) = function_from(item) else {
            return Ok(None);
        };
        functions.push(function)?;
    }
    Ok(Some(Functions(functions)))
}

fn are_few(items: &[Value]) -> bool
    ensures value { result ≡ nat_le (items_len (items_view items.now)) 16 }
    ensures within { IsTrue result → length items.now ≤ 16 }
{
    items.len() <= FUNCTIONS
}

// At most 16 functions.
fn functions_from(alloc: Global, items: &[Value]) -> Result<Option<Functions>, AllocError>
    ensures value { IfOk result (λ functions. functions ≡ functions_of (items_view items.now)) }
    ensures in_range { IfOk result (λ functions. IfSome functions (All IsFunctionInRange)) }
    ensures count { IfOk result (λ functions. IfSome functions (λ all. length all ≤ 16)) }
{
    if !are_few(items) {
        return Ok(None);
    }
    each_function_from(alloc, items)
}

pub(crate) fn transform_from(alloc: Global, value: &Value) -> Result<Option<Functions>, AllocError>
    ensures value { IfOk result (λ functions. functions ≡ transform_of (view value.now)) }
    ensures in_range { IfOk result (λ functions. IfSome functions (All IsFunctionInRange)) }
    ensures count { IfOk result (λ functions. IfSome functions (λ all. length all ≤ 16)) }
{
    match value.as_array() {
        Some(items) => functions_from(alloc, items),
        None => Ok(None),
    }
}

// The origin of a transform, which is written `[x,y]`.
#[tactic(auto, unfolding(crate::specs::Transform::origin_of))]
pub(crate) fn origin_from(value: &Value) -> Option<(i64, i64)>
    ensures value { result ≡ origin_of (view value.now) }
    ensures in_range { IfSome result (λ origin. IsWithin 26 origin.0 × IsWithin 26 origin.1) }
{
    if !is_array_of(value, 2) {
        return None;
    }
    let x = coordinate(value.get(0))?;
    let y = coordinate(value.get(1))?;
    Some((x, y))
}
