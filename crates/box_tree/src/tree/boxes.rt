// The numbers of nodes, boxes and vertices of the page, and their limits.
ghost use Rattle.std.specs.Prelude.{◌≡◌, ◌+◌, ◌≤◌, true, length};
ghost use Rattle.box_tree.specs.Contents.{has_id};
ghost use Rattle.box_tree.specs.Edited.{has_too_many_boxes, has_too_many_vertices, is_full_for, relabelled, laid_out, reshaped};
ghost use Rattle.box_tree.specs.Forms.{vertices_of_form};
ghost use Rattle.box_tree.specs.Totals.{box_count, vertex_count};

use super::Tree;
use crate::form::Form;
use crate::piece::PieceList;
use crate::sums::sums_at;
use fractions::Spot;

// The greatest number of nodes at once.
const NODES: usize = 65_536;

// The greatest id.
const IDS: u32 = 1_048_576;

// The greatest number of boxes of a node.
const BOXES_OF_NODE: usize = 1024;

// The greatest number of boxes of the page.
const BOXES: usize = 262_144;

// The greatest number of vertices of a form.
const VERTICES_OF_FORM: usize = 4096;

// The greatest number of vertices of the page.
const VERTICES: usize = 1_048_576;

impl Tree {
    // Whether the page is full for one more node, with so many boxes.
    pub(super) fn is_full_for(&self, count: usize) -> bool
        ensures { result ≡ is_full_for self.now.contents count }
    {
        self.nodes.len() >= NODES
            || (self.frame.next > IDS || has_too_many_boxes(count, self.frame.sums.boxes))
    }

    // Whether a node that is placed has too many boxes, or the page then.
    pub(super) fn has_too_many_placed(
        &self,
        id: u32,
        _anchor: Spot,
        boxes: &PieceList,
        _max: Spot,
    ) -> bool
        requires { has_id self.now.contents id ≡ true }
        ensures { result ≡ has_too_many_boxes (length boxes.now) (box_count (relabelled id (laid_out _anchor boxes.now _max) self.now.contents.tree)) }
    {
        let others = self.frame.sums.without(sums_at(self.find(id)));
        has_too_many_boxes(boxes.0.len(), others.boxes)
    }

    // Whether the form that a node is given has too many vertices, or the page then.
    pub(super) fn has_too_many_reshaped(&self, id: u32, form: &Form) -> bool
        requires { has_id self.now.contents id ≡ true }
        ensures { result ≡ has_too_many_vertices (vertices_of_form form.now) (vertex_count (relabelled id (reshaped form.now) self.now.contents.tree)) }
    {
        let others = self.frame.sums.without(sums_at(self.find(id)));
        has_too_many_vertices(form.vertices() as usize, others.vertices)
    }
}

// Whether a node with so many boxes has too many, or the page with those of the others.
fn has_too_many_boxes(count: usize, others: usize) -> bool
    requires { others ≤ 262144 }
    ensures { result ≡ has_too_many_boxes count (count + others) }
{
    count > BOXES_OF_NODE || count + others > BOXES
}

// Whether a form with so many vertices has too many, or the page with those of the others.
fn has_too_many_vertices(count: usize, others: usize) -> bool
    requires { others ≤ 1048576 }
    ensures { result ≡ has_too_many_vertices count (count + others) }
{
    count > VERTICES_OF_FORM || count + others > VERTICES
}
