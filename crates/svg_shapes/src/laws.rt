// Laws of the definitions, each the contract of a function without a body.
ghost use Rattle.std.specs.Prelude.{◌↔◌, ℤ, pos};
ghost use Rattle.svg_shapes.specs.declared.boxes.FineBox.{FineBox};
ghost use Rattle.svg_shapes.specs.Rects.{InRect};
ghost use Rattle.svg_shapes.specs.Ellipses.{ellipse_of, InEllipse, InDisc};
ghost use Rattle.svg_shapes.specs.Boxes.{InBox};

/// The interior of a circle is the disc: the points no further from the centre than the radius, where that is positive.
pub fn circles_are_discs()
    ensures { (cx cy r x y : ℤ) → InEllipse (ellipse_of cx cy r r) x y ↔ InDisc cx cy r x y }
{}

/// The interior of a rect without radii is the rectangle with its left and top edges and without its right and bottom
/// ones.
pub fn rects_without_radii_are_boxes()
    ensures { (box : FineBox) (x y : ℤ) → InRect box (pos 0) (pos 0) x y ↔ InBox x y box }
{}
