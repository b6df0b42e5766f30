// Numbers that the nodes of a page have together.
ghost use Rattle.std.specs.Prelude.{◌≡◌, ◌+◌, ◌≤◌};
ghost use Rattle.std.specs.Option.{option_copied};
ghost use Rattle.box_tree.specs.Forms.{form_vertices};
ghost use Rattle.box_tree.specs.Totals.{sums_at as sums_of_one, sums_over, sums_more, sums_less};
ghost use Rattle.std.specs.Prelude.{Some};

use crate::form::Form;
use crate::node::Node;

/// How many boxes and how many vertices there are.
#[derive(Clone, Copy)]
pub(crate) struct Sums {
    pub(crate) boxes: usize,
    pub(crate) vertices: usize,
}

// None of either.
pub(crate) const NOTHING: Sums = Sums {
    boxes: 0,
    vertices: 0,
};

impl Sums {
    // These with others.
    pub(crate) fn with(self, others: Sums) -> Sums
        requires boxes { self.boxes + others.boxes ≤ 262144 }
        requires vertices { self.vertices + others.vertices ≤ 1048576 }
        ensures { result ≡ sums_more self others }
    {
        Sums {
            boxes: self.boxes + others.boxes,
            vertices: self.vertices + others.vertices,
        }
    }

    // These without others that are among them.
    pub(crate) fn without(self, others: Sums) -> Sums
        requires boxes { others.boxes ≤ self.boxes }
        requires vertices { others.vertices ≤ self.vertices }
        ensures { result ≡ sums_less self others }
    {
        Sums {
            boxes: self.boxes - others.boxes,
            vertices: self.vertices - others.vertices,
        }
    }
}

// Those of a node, and 0 where there is none.
pub(crate) fn sums_at(node: Option<&Node>) -> Sums
    ensures { result ≡ sums_of_one (option_copied node.entry) }
{
    match node {
        Some(node) => sums_of(node),
        None => NOTHING,
    }
}

// Those of a node.
fn sums_of(node: &Node) -> Sums
    ensures { result ≡ sums_of_one (Some node.now) }
{
    Sums {
        boxes: node.boxes.count(),
        vertices: vertices_of(&node.form),
    }
}

// The vertices of a form, and 0 where there is none.
fn vertices_of(form: &Option<Form>) -> usize
    ensures { result ≡ form_vertices form.now }
{
    match form {
        Some(form) => form.vertices() as usize,
        None => 0,
    }
}

// Those of these nodes.
pub(crate) fn sums_of_all(nodes: &Vec<Node>) -> Sums
    requires boxes { (sums_over nodes.now.items).boxes ≤ 262144 }
    requires vertices { (sums_over nodes.now.items).vertices ≤ 1048576 }
    ensures { result ≡ sums_over nodes.now.items }
{
    let mut sums = NOTHING;
    for node in nodes {
        sums = sums.with(sums_of(node));
    }
    sums
}
