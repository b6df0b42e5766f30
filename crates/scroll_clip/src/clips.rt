// The clips that nodes set, and the points inside them.
ghost use Rattle.std.specs.Prelude.{◌≡◌, ◌<◌, ◌≤◌, ◌+◌, ◌*◌, ◌↔◌, length, false, IsTrue, IsNone, IfSome};
ghost use Rattle.corner_shapes.specs.Curve.{IsMeasured};
ghost use Rattle.box_tree.specs.Contents.{has_id, IsValid, IsWithin};
ghost use Rattle.box_tree.specs.Containing.{clips};
ghost use Rattle.box_tree.specs.Forms.{IsFormInRange};
ghost use Rattle.box_tree.specs.Kept.{label_of};
ghost use Rattle.spaces.specs.Table.{local_point_under, IsTableOf};
ghost use Rattle.scroll_clip.specs.Curves.{HasCurvesInRange};
ghost use Rattle.scroll_clip.specs.Clips.{clipping_curve, port_clip, clip_of, clip_holds, holders_of, inside_clips};

use crate::curves::{padding_curve, port_curve};
use box_tree::{Form, Holder, Node, Page};
use corner_shapes::Rounded;
use fractions::{Blank, Brand, Ledger, Steps};
use spaces::{FinePoint, SpaceTable};

/// The clip that a node sets on what it holds, in its own space and in fine units (1/4096 px): the padding curve of its
/// first box (CSS 2.2, 11.1.1; CSS Backgrounds and Borders 3, "Corner Clipping"). None exactly where the node doesn't
/// clip. The steps are counted by a counter of its own.
pub fn clip_rounded(page: &Page, id: u32) -> Option<Rounded>
    requires { IsTrue (has_id page.now.contents id) }
    ensures clip { result ≡ clip_of page.now.contents id }
    ensures none { IsNone result ↔ (clips page.now.contents id ≡ false) }
    ensures measured { IfSome result (λ curve. IsMeasured curve) }
{
    page.validity();
    clip_with::<Brand>(page, id, Blank::new(1))
}

// The same, with the ledger for the counter.
fn clip_with<L: Ledger>(page: &Page, id: u32, blank: Blank) -> Option<Rounded>
    requires valid { IsValid page.now.contents }
    requires there { IsTrue (has_id page.now.contents id) }
    requires name { blank.name ≡ L.name }
    requires parts { blank.parts ≡ L.parts }
    requires some_parts { 0 < blank.parts }
    ensures clip { result ≡ clip_of page.now.contents id }
    ensures measured { IfSome result (λ curve. IsMeasured curve) }
{
    clip_of(page, id, &mut Steps::<L>::new(blank))
}

/// Whether a point of the viewport, in units within 2^20, lies inside the clips of a node, by the table of the page: the clip
/// of each of its containing blocks that clips, the node itself left out, holds the point in the space of that containing
/// block (CSS 2.2, 11.1.1). A clip holds no point where its space is singular. It takes at most two steps for each of these
/// containing blocks, of which there are at most 255.
pub fn inside_clips<L: Ledger>(
    page: &Page,
    spaces: &SpaceTable,
    id: u32,
    x: i64,
    y: i64,
    steps: &mut Steps<L>,
) -> bool
    requires there { IsTrue (has_id page.now.contents id) }
    requires table { IsTableOf spaces.now page.now.contents }
    requires x { IsWithin 20 x }
    requires y { IsWithin 20 y }
    ensures inside { result ≡ inside_clips page.now.contents id x y }
    ensures cost { steps.new ≤ steps.old + 2 * length (holders_of page.now.contents id) }
    ensures counts { steps.old ≤ steps.new }
{
    page.validity();
    let by = page.containing_block(id);
    match by {
        Holder::Node { id: holder } => {
            let clip = clip_of(page, holder, steps);
            clip_lets_in(spaces, clip, holder, x, y, steps)
                && inside_clips(page, spaces, holder, x, y, steps)
        }
        Holder::Initial | Holder::Viewport => true,
    }
}

// Whether the clip of a node, where it sets one, holds a point of the viewport in the space of that node, by the table.
fn clip_lets_in<L: Ledger>(
    spaces: &SpaceTable,
    clip: Option<Rounded>,
    id: u32,
    x: i64,
    y: i64,
    steps: &mut Steps<L>,
) -> bool
    requires clip { IfSome clip (λ curve. IsMeasured curve) }
    requires x { IsWithin 20 x }
    requires y { IsWithin 20 y }
    ensures holds { result ≡ clip_holds clip (local_point_under spaces.now id x y) }
    ensures cost { steps.new ≤ steps.old + 1 }
    ensures counts { steps.old ≤ steps.new }
{
    match clip {
        Some(curve) => curve_holds(&curve, spaces.local_point(id, x, y, steps)),
        None => true,
    }
}

// Whether a curve holds a local point; it holds no missing one.
fn curve_holds(curve: &Rounded, at: Option<FinePoint>) -> bool
    requires { IsMeasured curve.now }
    ensures { result ≡ clip_holds (Some curve.now) at }
{
    match at {
        Some(at) => curve.holds(at.x, at.y),
        None => false,
    }
}

// The clip that a node sets.
fn clip_of<L: Ledger>(page: &Page, id: u32, steps: &mut Steps<L>) -> Option<Rounded>
    requires valid { IsValid page.now.contents }
    requires there { IsTrue (has_id page.now.contents id) }
    ensures clip { result ≡ clip_of page.now.contents id }
    ensures measured { IfSome result (λ curve. IsMeasured curve) }
    ensures cost { steps.new ≤ steps.old + 1 }
    ensures counts { steps.old ≤ steps.new }
{
    if page.clips(id) {
        clipping_curve(page.node(id, steps))
    } else {
        None
    }
}

// The curve at which a node clips: the padding curve of its first box, and without a box the viewport of its form.
fn clipping_curve(node: &Node) -> Option<Rounded>
    requires curves { HasCurvesInRange (label_of node.now) }
    requires form { IfSome node.now.form IsFormInRange }
    ensures curve { result ≡ clipping_curve (label_of node.now) }
    ensures measured { IfSome result (λ curve. IsMeasured curve) }
{
    match node.boxes.as_slice().first() {
        Some(piece) => Some(padding_curve(node, piece)),
        None => port_clip(&node.form),
    }
}

// The viewport that a form gives, as a clip.
fn port_clip(form: &Option<Form>) -> Option<Rounded>
    requires { IfSome form.now IsFormInRange }
    ensures curve { result ≡ port_clip form.now }
    ensures measured { IfSome result (λ curve. IsMeasured curve) }
{
    match form {
        Some(Form::Port(port)) => Some(port_curve(port)),
        Some(Form::Outline(_) | Form::Cover(_) | Form::View(_) | Form::MapName(_)) | None => None,
    }
}
