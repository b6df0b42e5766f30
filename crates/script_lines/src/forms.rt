// What a node has beside its boxes, as the JSON array of the key `shape` spells it.
ghost use Rattle.std.specs.Prelude.{◌≡◌, IfOk, IfSome, option_map, option_and_then};
ghost use Rattle.serde_json.specs.Find.{as_str};
ghost use Rattle.serde_json.specs.View.{view};
ghost use Rattle.svg_shapes.specs.Shapes.{IsMeasured};
ghost use Rattle.box_tree.specs.Forms.{IsFormInRange};
ghost use Rattle.box_tree.specs.declared.form.Form.TheVariants.{Cover, Outline, View, Port, MapName};
ghost use Rattle.script_lines.specs.Forms.{has_list as lists, map_of, rect_form as rect_or_area, circle_form as circle_or_area, outline_as, form_named as named, form_as, form_of};
ghost use Rattle.script_lines.specs.Views.{view_of, port_of};

use crate::areas::{area_from, default_from};
use crate::paths::{path_from, polygon_from, polyline_from};
use crate::shapes::{circle_from, ellipse_from, fine_boxes_from, line_from, rect_from};
use crate::values::{is_array_of, number_to};
use crate::views::{port_from, view_from};
use box_tree::Form;
use image_maps::{AreaKind, AreaShape, OutOfMemory};
use serde_json::Value;
use std::alloc::Global;
use svg_shapes::Shape;

// The name of a form.
#[derive(Clone, Copy)]
enum FormName {
    Rect,
    Circle,
    Poly,
    Default,
    View,
    Port,
    Map,
    Outline(OutlineName),
}

// The name of an outline, but for a rect and a circle, whose names areas have too.
#[derive(Clone, Copy)]
enum OutlineName {
    Path,
    Polygon,
    Polyline,
    Line,
    Ellipse,
    Boxes,
}

// Whether a list stands in the second place.
fn has_list(value: &Value) -> bool
    ensures { result ≡ lists (view value.now) }
{
    value.get(1).and_then(Value::as_array).is_some()
}

fn cover(area: Option<AreaShape>) -> Option<Form>
    ensures value { result ≡ option_map Cover area }
    ensures in_range { IfSome result IsFormInRange }
{
    match area {
        Some(area) => Some(Form::Cover(area)),
        None => None,
    }
}

fn outline(shape: Option<Shape>) -> Option<Form>
    requires { IfSome shape IsMeasured }
    ensures value { result ≡ option_map Outline shape }
    ensures in_range { IfSome result IsFormInRange }
{
    match shape {
        Some(shape) => Some(Form::Outline(shape)),
        None => None,
    }
}

// A rect, of an area where a list stands in the second place.
#[tactic(auto, unfolding(crate::specs::Forms::rect_form))]
fn rect_form(alloc: Global, value: &Value) -> Result<Option<Form>, OutOfMemory>
    ensures value { IfOk result (λ form. form ≡ rect_or_area (view value.now)) }
    ensures in_range { IfOk result (λ form. IfSome form IsFormInRange) }
{
    if has_list(value) {
        Ok(cover(area_from(alloc, AreaKind::Rect, value)?))
    } else {
        Ok(outline(rect_from(value)))
    }
}

// A circle, of an area where a list stands in the second place.
#[tactic(auto, unfolding(crate::specs::Forms::circle_form))]
fn circle_form(alloc: Global, value: &Value) -> Result<Option<Form>, OutOfMemory>
    ensures value { IfOk result (λ form. form ≡ circle_or_area (view value.now)) }
    ensures in_range { IfOk result (λ form. IfSome form IsFormInRange) }
{
    if has_list(value) {
        Ok(cover(area_from(alloc, AreaKind::Circle, value)?))
    } else {
        Ok(outline(circle_from(value)))
    }
}

// The map of an image.
#[tactic(auto, unfolding(crate::specs::Forms::map_of))]
fn map_from(value: &Value) -> Option<u32>
    ensures { result ≡ map_of (view value.now) }
{
    if !is_array_of(value, 2) {
        return None;
    }
    number_to(value.get(1), u32::MAX)
}

// The outline by the row of its name.
fn outline_from(
    alloc: Global,
    name: OutlineName,
    value: &Value,
) -> Result<Option<Shape>, OutOfMemory>
    ensures value { IfOk result (λ shape. shape ≡ outline_as name (view value.now)) }
    ensures in_range { IfOk result (λ shape. IfSome shape IsMeasured) }
{
    match name {
        OutlineName::Path => path_from(alloc, value),
        OutlineName::Polygon => polygon_from(alloc, value),
        OutlineName::Polyline => polyline_from(alloc, value),
        OutlineName::Line => Ok(line_from(value)),
        OutlineName::Ellipse => Ok(ellipse_from(value)),
        OutlineName::Boxes => Ok(fine_boxes_from(alloc, value)?),
    }
}

fn view_form(value: &Value) -> Option<Form>
    ensures value { result ≡ option_map View (view_of (view value.now)) }
    ensures in_range { IfSome result IsFormInRange }
{
    let given = view_from(value)?;
    Some(Form::View(given))
}

fn port_form(value: &Value) -> Option<Form>
    ensures value { result ≡ option_map Port (port_of (view value.now)) }
    ensures in_range { IfSome result IsFormInRange }
{
    let port = port_from(value)?;
    Some(Form::Port(port))
}

fn map_form(value: &Value) -> Option<Form>
    ensures value { result ≡ option_map MapName (map_of (view value.now)) }
    ensures in_range { IfSome result IsFormInRange }
{
    let map = map_from(value)?;
    Some(Form::MapName(map))
}

// The name of a form.
fn name_from(found: Option<&Value>) -> Option<FormName>
    ensures { result ≡ option_and_then named (option_and_then as_str (option_map (λ v. view v.now) found.entry)) }
{
    match found?.as_str()? {
        "rect" => Some(FormName::Rect),
        "circle" => Some(FormName::Circle),
        "poly" => Some(FormName::Poly),
        "default" => Some(FormName::Default),
        "view" => Some(FormName::View),
        "port" => Some(FormName::Port),
        "map" => Some(FormName::Map),
        "path" => Some(FormName::Outline(OutlineName::Path)),
        "polygon" => Some(FormName::Outline(OutlineName::Polygon)),
        "polyline" => Some(FormName::Outline(OutlineName::Polyline)),
        "line" => Some(FormName::Outline(OutlineName::Line)),
        "ellipse" => Some(FormName::Outline(OutlineName::Ellipse)),
        "boxes" => Some(FormName::Outline(OutlineName::Boxes)),
        _ => None,
    }
}

// The form by the row of its name.
fn row_from(alloc: Global, name: FormName, value: &Value) -> Result<Option<Form>, OutOfMemory>
    ensures value { IfOk result (λ form. form ≡ form_as name (view value.now)) }
    ensures in_range { IfOk result (λ form. IfSome form IsFormInRange) }
{
    match name {
        FormName::Rect => rect_form(alloc, value),
        FormName::Circle => circle_form(alloc, value),
        FormName::Poly => Ok(cover(area_from(alloc, AreaKind::Poly, value)?)),
        FormName::Default => Ok(cover(default_from(alloc, value)?)),
        FormName::View => Ok(view_form(value)),
        FormName::Port => Ok(port_form(value)),
        FormName::Map => Ok(map_form(value)),
        FormName::Outline(name) => Ok(outline(outline_from(alloc, name, value)?)),
    }
}

// A form, whose name stands first.
#[tactic(auto, unfolding(crate::specs::Forms::form_of))]
fn form_of_value(alloc: Global, value: &Value) -> Result<Option<Form>, OutOfMemory>
    ensures value { IfOk result (λ form. form ≡ form_of (view value.now)) }
    ensures in_range { IfOk result (λ form. IfSome form IsFormInRange) }
{
    match name_from(value.get(0)) {
        Some(name) => row_from(alloc, name, value),
        None => Ok(None),
    }
}

pub(crate) fn form_from(alloc: Global, found: Option<&Value>) -> Result<Option<Form>, OutOfMemory>
    ensures value { IfOk result (λ form. form ≡ option_and_then form_of (option_map (λ v. view v.now) found.entry)) }
    ensures in_range { IfOk result (λ form. IfSome form IsFormInRange) }
{
    match found {
        Some(value) => form_of_value(alloc, value),
        None => Ok(None),
    }
}
