// Whether the outline of a shape is admitted at a local point.
ghost use Rattle.std.specs.Prelude.{◌≡◌, ◌^◌, IfSome};
ghost use Rattle.affine.specs.Function.{AreWithin};
ghost use Rattle.svg_shapes.specs.Shapes.{IsMeasured};
ghost use Rattle.computed_style.specs.Ranges.{IsSide};
ghost use Rattle.box_tree.specs.Forms.{IsFormInRange};
ghost use Rattle.box_tree.specs.Kept.{label_of};
ghost use Rattle.point_query.specs.Outlines.{fill_rule_of, cap_of, shape_admits, outline_admits};

use box_tree::{Form, Node};
use computed_style::{Ends, Inherited, Rule, admits_shape};
use spaces::FinePoint;
use svg_shapes::{Cap, FillRule, Shape};

// Whether the outline of a node is admitted at its local point: only a shape has one.
pub(crate) fn outline_admits(node: &Node, values: &Inherited, at: FinePoint) -> bool
    requires form { IfSome node.now.form IsFormInRange }
    requires width { IsSide 26 values.now.stroke_width }
    requires at { AreWithin (2 ^ 122) at.x at.y }
    ensures { result ≡ outline_admits (label_of node.now) values.now at }
{
    match &node.form {
        Some(Form::Outline(shape)) => shape_admits(shape, values, at),
        Some(Form::Cover(_) | Form::View(_) | Form::Port(_) | Form::MapName(_)) | None => false,
    }
}

// Whether a shape is admitted at a point: by its interior alone, or else by its perimeter, which is asked only where it
// counts.
fn shape_admits(shape: &Shape, values: &Inherited, at: FinePoint) -> bool
    requires shape { IsMeasured shape.now }
    requires width { IsSide 26 values.now.stroke_width }
    requires at { AreWithin (2 ^ 122) at.x at.y }
    ensures { result ≡ shape_admits shape.now values.now at }
{
    let over_fill = shape.interior(fill_rule_of(values.rule), at.x, at.y);
    if admits_shape(values, over_fill, false) {
        return true;
    }
    admits_shape(values, over_fill, true)
        && shape.perimeter(values.stroke_width, cap_of(values.ends), at.x, at.y)
}

fn fill_rule_of(rule: Rule) -> FillRule
    ensures { result ≡ fill_rule_of rule }
{
    match rule {
        Rule::NonZero => FillRule::NonZero,
        Rule::EvenOdd => FillRule::EvenOdd,
    }
}

fn cap_of(ends: Ends) -> Cap
    ensures { result ≡ cap_of ends }
{
    match ends {
        Ends::Butt => Cap::Butt,
        Ends::Round => Cap::Round,
        Ends::Square => Cap::Square,
    }
}
