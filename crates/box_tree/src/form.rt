ghost use Rattle.std.specs.Prelude.{◌≡◌, ◌↔◌, IsTrue, IfOk, IfSome};
ghost use Rattle.box_tree.specs.Forms.{IsFormInRange, vertices_of_form};
ghost use Rattle.view_boxes.specs.Ranges.{IsViewBoxInRange};

use image_maps::AreaShape;
use svg_shapes::{OutOfMemory, Shape};
use view_boxes::{Port, ViewBox};

/// What a node has beside its boxes, by its kind.
#[derive(Debug, Drop)]
pub enum Form {
    /// The outline of a shape, in fine units (1/4096 px). SVG 2, "Basic Shapes" and "Paths".
    Outline(Shape),
    /// What an area of an image map covers, in units (1/64 px) from the padding corner of the image. HTML, "Image map
    /// processing model".
    Cover(AreaShape),
    /// The viewBox of an svg, or none. SVG 2, section 8.6.
    View(Option<ViewBox>),
    /// The viewport of an inner svg. SVG 2, section 8.2.
    Port(Port),
    /// The id of the map that an image names, 0 for none. It may be that of no node, or of a node that is no map.
    MapName(u32),
}

impl Form {
    /// An equal form with memory of its own.
    pub fn copy(&self) -> Result<Form, OutOfMemory>
        ensures { IfOk result (λ form. form ≡ self.now) }
    {
        Ok(match self {
            Form::Outline(shape) => Form::Outline(shape.copy()?),
            Form::Cover(area) => Form::Cover(area.copy()?),
            Form::View(view) => Form::View(*view),
            Form::Port(port) => Form::Port(*port),
            Form::MapName(map) => Form::MapName(*map),
        })
    }

    /// How many vertices it counts for: those of a shape or of an area.
    pub fn vertices(&self) -> u32
        ensures { result ≡ vertices_of_form self.now }
    {
        match self {
            Form::Outline(shape) => shape.vertices(),
            Form::Cover(area) => area.vertices(),
            Form::View(_) | Form::Port(_) | Form::MapName(_) => 0,
        }
    }

    /// Whether its numbers are within their limits.
    pub fn in_range(&self) -> bool
        ensures { IsTrue result ↔ IsFormInRange self.now }
    {
        match self {
            Form::Outline(shape) => shape.in_range(),
            Form::View(view) => is_view_in_range(view),
            Form::Port(port) => port.in_range(),
            Form::Cover(_) | Form::MapName(_) => true,
        }
    }
}

// Whether the numbers of a viewBox are within their limits, where there is one.
fn is_view_in_range(view: &Option<ViewBox>) -> bool
    ensures { IsTrue result ↔ IfSome view.now IsViewBoxInRange }
{
    match view {
        Some(view) => view.in_range(),
        None => true,
    }
}
