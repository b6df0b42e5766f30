// The outline of a shape that a JSON array spells.
ghost use Rattle.std.specs.Prelude.{◌≡◌, ◌≤◌, IfOk, IfSome, All, option_map, option_and_then};
ghost use Rattle.serde_json.specs.Find.{as_array};
ghost use Rattle.serde_json.specs.View.{view, items_view};
ghost use Rattle.computed_style.specs.Ranges.{IsSide, IsWithin};
ghost use Rattle.svg_shapes.specs.Measures.{IsBoxMeasured};
ghost use Rattle.svg_shapes.specs.Shapes.{IsMeasured};
ghost use Rattle.script_lines.specs.Shapes.{place_at, sizes_at, line_of, rect_of, circle_of, ellipse_of, fine_box_of, each_fine_box, fine_boxes_of};

use crate::values::{coordinate, is_array_of, side};
use serde_json::Value;
use std::alloc::{AllocError, Global};
use svg_shapes::{FineBox, FineBoxes, Shape};

// Two places, from a member of an array on.
#[tactic(auto, unfolding(crate::specs::Shapes::place_at))]
pub(crate) fn place_from(value: &Value, k: usize) -> Option<(i64, i64)>
    requires { k ≤ 16 }
    ensures value { result ≡ place_at k (view value.now) }
    ensures in_range { IfSome result (λ p. IsWithin 26 p.0 × IsWithin 26 p.1) }
{
    let x = coordinate(value.get(k))?;
    let y = coordinate(value.get(k + 1))?;
    Some((x, y))
}

// Two sizes or radii, from a member of an array on.
#[tactic(auto, unfolding(crate::specs::Shapes::sizes_at))]
pub(crate) fn sizes_from(value: &Value, k: usize) -> Option<(i64, i64)>
    requires { k ≤ 16 }
    ensures value { result ≡ sizes_at k (view value.now) }
    ensures in_range { IfSome result (λ s. IsSide 26 s.0 × IsSide 26 s.1) }
{
    let across = side(value.get(k))?;
    let down = side(value.get(k + 1))?;
    Some((across, down))
}

#[tactic(auto, unfolding(crate::specs::Shapes::line_of))]
pub(crate) fn line_from(value: &Value) -> Option<Shape>
    ensures value { result ≡ line_of (view value.now) }
    ensures in_range { IfSome result IsMeasured }
{
    if !is_array_of(value, 5) {
        return None;
    }
    let (x1, y1) = place_from(value, 1)?;
    let (x2, y2) = place_from(value, 3)?;
    Some(Shape::Line { x1, y1, x2, y2 })
}

#[tactic(auto, unfolding(crate::specs::Shapes::rect_of))]
pub(crate) fn rect_from(value: &Value) -> Option<Shape>
    ensures value { result ≡ rect_of (view value.now) }
    ensures in_range { IfSome result IsMeasured }
{
    if !is_array_of(value, 7) {
        return None;
    }
    let (x, y) = place_from(value, 1)?;
    let (w, h) = sizes_from(value, 3)?;
    let (rx, ry) = sizes_from(value, 5)?;
    Some(Shape::Rect { x, y, w, h, rx, ry })
}

#[tactic(auto, unfolding(crate::specs::Shapes::circle_of))]
pub(crate) fn circle_from(value: &Value) -> Option<Shape>
    ensures value { result ≡ circle_of (view value.now) }
    ensures in_range { IfSome result IsMeasured }
{
    if !is_array_of(value, 4) {
        return None;
    }
    let (cx, cy) = place_from(value, 1)?;
    let r = side(value.get(3))?;
    Some(Shape::Circle { cx, cy, r })
}

#[tactic(auto, unfolding(crate::specs::Shapes::ellipse_of))]
pub(crate) fn ellipse_from(value: &Value) -> Option<Shape>
    ensures value { result ≡ ellipse_of (view value.now) }
    ensures in_range { IfSome result IsMeasured }
{
    if !is_array_of(value, 5) {
        return None;
    }
    let (cx, cy) = place_from(value, 1)?;
    let (rx, ry) = sizes_from(value, 3)?;
    Some(Shape::Ellipse { cx, cy, rx, ry })
}

// A box of a text, which is written `[x,y,w,h]`.
#[tactic(auto, unfolding(crate::specs::Shapes::fine_box_of))]
fn fine_box_from(value: &Value) -> Option<FineBox>
    ensures value { result ≡ fine_box_of (view value.now) }
    ensures in_range { IfSome result IsBoxMeasured }
{
    if !is_array_of(value, 4) {
        return None;
    }
    let (x, y) = place_from(value, 0)?;
    let (w, h) = sizes_from(value, 2)?;
    Some(FineBox { x, y, w, h })
}

// Each item as a box of a text.
fn each_fine_box_from(alloc: Global, items: &[Value]) -> Result<Option<FineBoxes>, AllocError>
    ensures value { IfOk result (λ boxes. boxes ≡ each_fine_box (items_view items.now)) }
    ensures in_range { IfOk result (λ boxes. IfSome boxes (All IsBoxMeasured)) }
{
    let mut boxes = Vec::new(alloc);
    for item in items {
        let Some(fine_box) = fine_box_from(item) else {
            return Ok(None);
        };
        boxes.push(fine_box)?;
    }
    Ok(Some(FineBoxes(boxes)))
}

// The boxes of a text.
#[tactic(auto, unfolding(crate::specs::Shapes::fine_boxes_of))]
pub(crate) fn fine_boxes_from(alloc: Global, value: &Value) -> Result<Option<Shape>, AllocError>
    ensures value { IfOk result (λ shape. shape ≡ fine_boxes_of (view value.now)) }
    ensures in_range { IfOk result (λ shape. IfSome shape IsMeasured) }
{
    if !is_array_of(value, 2) {
        return Ok(None);
    }
    let Some(boxes) = list_of_boxes(alloc, value.get(1))? else {
        return Ok(None);
    };
    Ok(Some(Shape::Boxes(boxes)))
}

fn list_of_boxes(alloc: Global, found: Option<&Value>) -> Result<Option<FineBoxes>, AllocError>
    ensures value { IfOk result (λ boxes. boxes
        ≡ option_and_then each_fine_box (option_and_then as_array (option_map (λ v. view v.now) found.entry))) }
    ensures in_range { IfOk result (λ boxes. IfSome boxes (All IsBoxMeasured)) }
{
    match found.and_then(Value::as_array) {
        Some(items) => each_fine_box_from(alloc, items),
        None => Ok(None),
    }
}
