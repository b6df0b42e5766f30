// The outlines of straight lines that a JSON array spells: paths, polygons and polylines.
ghost use Rattle.std.specs.Prelude.{◌≡◌, ◌+◌, ◌≤◌, ◌^◌, nat_le, IfOk, IfSome, IsTrue, Some, None, false, length, option_map, option_and_then};
ghost use Rattle.std.specs.List.{All};
ghost use Rattle.serde_json.specs.Find.{as_array};
ghost use Rattle.serde_json.specs.View.{view, items_view};
ghost use Rattle.poly_shapes.specs.Segments.{IsPlaced};
ghost use Rattle.poly_shapes.specs.Outline.{IsMeasured};
ghost use Rattle.svg_shapes.specs.Shapes.{IsMeasured as IsShapeMeasured};
ghost use Rattle.script_lines.specs.Shapes.{point_at, each_point, subpath_items, subpath_of, with_subpath, no_outline, each_subpath, path_of, polygon_of, polyline_of, one_subpath};

use crate::values::{coordinate, is_array_of, number_to};
use poly_shapes::{OutOfMemory, Point, Poly, Sub};
use serde_json::Value;
use std::alloc::{AllocError, Global};
use std::marker::Model;
use svg_shapes::Shape;

/// The most points of an outline.
const MOST: usize = 1 << 19;

// Points in their order, which clauses see as a list.
#[derive(Drop)]
pub(crate) struct Points(Vec<Point>);

impl Model for Points {
    ghost use Rattle.std.specs.Prelude.{List};
    ghost use Rattle.poly_shapes.specs.declared.point.Point.{Point};

    ghost Value = { List Point };

    ghost view = { λ points. points.0.items };
}

// A subpath: whether it is closed, and its points.
#[derive(Drop)]
pub(crate) struct Subpath {
    closed: bool,
    points: Points,
}

// An outline that is being drawn, which clauses see as its points and its subpaths.
#[derive(Drop)]
struct Drawing {
    points: Vec<Point>,
    subs: Vec<Sub>,
}

impl Model for Drawing {
    ghost use Rattle.poly_shapes.specs.Outline.{Outline};

    ghost Value = { Outline };

    ghost view = { λ drawing. record { points = drawing.points.items; subs = drawing.subs.items } };
}

impl Drawing {
    fn new(alloc: Global) -> Drawing
        ensures value { result ≡ no_outline }
        ensures measured { IsMeasured result }
    {
        Drawing {
            points: Vec::new(alloc),
            subs: Vec::new(alloc),
        }
    }

    // One subpath more, where there is room for its points, which is the answer.
    #[tactic(auto, unfolding(crate::specs::Shapes::with_subpath))]
    fn add(&mut self, subpath: &Subpath) -> Result<bool, AllocError>
        requires measured { IsMeasured self.old }
        requires placed { All IsPlaced subpath.now.points }
        ensures given { IfOk result (λ is. IsTrue is → with_subpath self.old subpath.now ≡ Some self.new) }
        ensures none { IfOk result (λ is. is ≡ false → with_subpath self.old subpath.now ≡ None) }
        ensures measured { IfOk result (λ is. IsTrue is → IsMeasured self.new) }
    {
        let points = &subpath.points.0;
        if !fit(self.points.len(), points.len()) {
            return Ok(false);
        }
        let sub = Sub {
            first: self.points.len() as u32,
            count: points.len() as u32,
            closed: subpath.closed,
        };
        self.points.extend_from_slice(points)?;
        self.subs.push(sub)?;
        Ok(true)
    }

    fn poly(&self, alloc: Global) -> Result<Poly, OutOfMemory>
        requires { IsMeasured self.now }
        ensures { IfOk result (λ poly. poly ≡ self.now) }
    {
        Poly::new(alloc, &self.points, &self.subs)
    }
}

// Whether so many points more are not too many.
fn fit(count: usize, more: usize) -> bool
    requires { count ≤ 2 ^ 19 }
    ensures { result ≡ nat_le (count + more) (2 ^ 19) }
{
    more <= MOST - count
}

fn point_from(x: &Value, y: &Value) -> Option<Point>
    ensures value { result ≡ point_at (view x.now) (view y.now) }
    ensures in_range { IfSome result IsPlaced }
{
    let x = coordinate(Some(x))?;
    let y = coordinate(Some(y))?;
    Some(Point { x, y })
}

// Each two items as a point; an odd number of them is none.
fn each_point_from(alloc: Global, items: &[Value]) -> Result<Option<Points>, AllocError>
    ensures value { IfOk result (λ points. points ≡ each_point (items_view items.now)) }
    ensures in_range { IfOk result (λ points. IfSome points (All IsPlaced)) }
{
    if items.len() % 2 == 1 {
        return Ok(None);
    }
    let mut points = Vec::new(alloc);
    for k in 0..items.len() / 2 {
        let Some(point) = point_from(&items[2 * k], &items[2 * k + 1]) else {
            return Ok(None);
        };
        points.push(point)?;
    }
    Ok(Some(Points(points)))
}

// The items of a subpath: 1 where it is closed and else 0, and then its points.
fn subpath_from_items(alloc: Global, items: &[Value]) -> Result<Option<Subpath>, AllocError>
    ensures value { IfOk result (λ subpath. subpath ≡ subpath_items (items_view items.now)) }
    ensures in_range { IfOk result (λ subpath. IfSome subpath (λ s. All IsPlaced s.points)) }
{
    let [first, rest @ ..] = items else {
        return Ok(None);
    };
    let Some(closed) = number_to(Some(first), 1) else {
        return Ok(None);
    };
    let Some(points) = each_point_from(alloc, rest)? else {
        return Ok(None);
    };
    Ok(Some(Subpath {
        closed: closed == 1,
        points,
    }))
}

fn subpath_from(alloc: Global, value: &Value) -> Result<Option<Subpath>, AllocError>
    ensures value { IfOk result (λ subpath. subpath ≡ subpath_of (view value.now)) }
    ensures in_range { IfOk result (λ subpath. IfSome subpath (λ s. All IsPlaced s.points)) }
{
    match value.as_array() {
        Some(items) => subpath_from_items(alloc, items),
        None => Ok(None),
    }
}

// Each item as one subpath more.
fn each_subpath_from(alloc: Global, items: &[Value]) -> Result<Option<Drawing>, AllocError>
    ensures value { IfOk result (λ drawing. drawing ≡ each_subpath no_outline (items_view items.now)) }
    ensures in_range { IfOk result (λ drawing. IfSome drawing IsMeasured) }
{
    let mut drawing = Drawing::new(alloc);
    for item in items {
        let Some(subpath) = subpath_from(alloc, item)? else {
            return Ok(None);
        };
        if !drawing.add(&subpath)? {
            return Ok(None);
        }
    }
    Ok(Some(drawing))
}

// An outline of one subpath.
fn one_subpath_from(
    alloc: Global,
    closed: bool,
    items: &[Value],
) -> Result<Option<Drawing>, AllocError>
    ensures value { IfOk result (λ drawing. drawing ≡ one_subpath closed (items_view items.now)) }
    ensures in_range { IfOk result (λ drawing. IfSome drawing IsMeasured) }
{
    let Some(points) = each_point_from(alloc, items)? else {
        return Ok(None);
    };
    let mut drawing = Drawing::new(alloc);
    if !drawing.add(&Subpath { closed, points })? {
        return Ok(None);
    }
    Ok(Some(drawing))
}

// The outline of a list of subpaths.
fn path_drawing(alloc: Global, found: Option<&Value>) -> Result<Option<Drawing>, AllocError>
    ensures value { IfOk result (λ drawing. drawing
        ≡ option_and_then (each_subpath no_outline) (option_and_then as_array (option_map (λ v. view v.now) found.entry))) }
    ensures in_range { IfOk result (λ drawing. IfSome drawing IsMeasured) }
{
    match found.and_then(Value::as_array) {
        Some(items) => each_subpath_from(alloc, items),
        None => Ok(None),
    }
}

// The outline of one list of points.
fn subpath_drawing(
    alloc: Global,
    closed: bool,
    found: Option<&Value>,
) -> Result<Option<Drawing>, AllocError>
    ensures value { IfOk result (λ drawing. drawing
        ≡ option_and_then (one_subpath closed) (option_and_then as_array (option_map (λ v. view v.now) found.entry))) }
    ensures in_range { IfOk result (λ drawing. IfSome drawing IsMeasured) }
{
    match found.and_then(Value::as_array) {
        Some(items) => one_subpath_from(alloc, closed, items),
        None => Ok(None),
    }
}

#[tactic(auto, unfolding(crate::specs::Shapes::path_of))]
pub(crate) fn path_from(alloc: Global, value: &Value) -> Result<Option<Shape>, OutOfMemory>
    ensures value { IfOk result (λ shape. shape ≡ path_of (view value.now)) }
    ensures in_range { IfOk result (λ shape. IfSome shape IsShapeMeasured) }
{
    if !is_array_of(value, 2) {
        return Ok(None);
    }
    let Some(drawing) = path_drawing(alloc, value.get(1))? else {
        return Ok(None);
    };
    Ok(Some(Shape::Path(drawing.poly(alloc)?)))
}

#[tactic(auto, unfolding(crate::specs::Shapes::polygon_of))]
pub(crate) fn polygon_from(alloc: Global, value: &Value) -> Result<Option<Shape>, OutOfMemory>
    ensures value { IfOk result (λ shape. shape ≡ polygon_of (view value.now)) }
    ensures in_range { IfOk result (λ shape. IfSome shape IsShapeMeasured) }
{
    if !is_array_of(value, 2) {
        return Ok(None);
    }
    let Some(drawing) = subpath_drawing(alloc, true, value.get(1))? else {
        return Ok(None);
    };
    Ok(Some(Shape::Polygon(drawing.poly(alloc)?)))
}

#[tactic(auto, unfolding(crate::specs::Shapes::polyline_of))]
pub(crate) fn polyline_from(alloc: Global, value: &Value) -> Result<Option<Shape>, OutOfMemory>
    ensures value { IfOk result (λ shape. shape ≡ polyline_of (view value.now)) }
    ensures in_range { IfOk result (λ shape. IfSome shape IsShapeMeasured) }
{
    if !is_array_of(value, 2) {
        return Ok(None);
    }
    let Some(drawing) = subpath_drawing(alloc, false, value.get(1))? else {
        return Ok(None);
    };
    Ok(Some(Shape::Polyline(drawing.poly(alloc)?)))
}
