// The area of an image map that a point lies in.
ghost use Rattle.std.specs.Prelude.{◌≡◌, ◌+◌, ◌^◌, ◌<◌, ◌≤◌, unsigned_abs, length, false};
ghost use Rattle.std.specs.Option.{option_map_or};
ghost use Rattle.box_tree.specs.Contents.{node_of};
ghost use Rattle.box_tree.specs.Covers.{form_covers as is_covering, covering_among, areas_of, first_cover};
ghost use Rattle.box_tree.specs.Forest.{roots_of};

use crate::form::Form;
use crate::page::Page;
use crate::suits::is_map;
use fractions::{Ledger, Steps};

impl Page {
    /// The first area in tree order, of the map of an id, that covers a point below 2^123 in size, which is counted in fine
    /// units (1/4096 px) from the padding corner of the image; none exactly where no area of a map of that id covers it. An
    /// area that has no form covers nothing. It takes one step for each area that it reads, and reads each area of that map
    /// at most once. HTML, "Image map processing model".
    pub fn first_cover<L: Ledger>(
        &self,
        map: u32,
        x: i128,
        y: i128,
        steps: &mut Steps<L>,
    ) -> Option<u32>
        requires x { unsigned_abs x < 2 ^ 123 }
        requires y { unsigned_abs y < 2 ^ 123 }
        ensures first { result ≡ first_cover self.now.contents map x y }
        ensures steps { steps.new ≤ steps.old + length (roots_of (areas_of self.now.contents map)) }
        ensures counts { steps.old ≤ steps.new }
    {
        self.validity();
        let Some(node) = self.find(map) else {
            return None;
        };
        if !is_map(node.kind) {
            return None;
        }
        self.first_among(node.children.as_slice(), x, y, steps)
    }

    // The first of these nodes that covers a point.
    fn first_among<L: Ledger>(
        &self,
        ids: &[u32],
        x: i128,
        y: i128,
        steps: &mut Steps<L>,
    ) -> Option<u32>
        requires x { unsigned_abs x < 2 ^ 123 }
        requires y { unsigned_abs y < 2 ^ 123 }
        ensures first { result ≡ covering_among self.now.contents x y ids.now }
        ensures steps { steps.new ≤ steps.old + length ids.now }
        ensures counts { steps.old ≤ steps.new }
    {
        for id in ids {
            steps.tick();
            if self.covers_at(*id, x, y) {
                return Some(*id);
            }
        }
        None
    }

    // Whether the node of an id covers a point.
    fn covers_at(&self, id: u32, x: i128, y: i128) -> bool
        requires x { unsigned_abs x < 2 ^ 123 }
        requires y { unsigned_abs y < 2 ^ 123 }
        ensures { result ≡ option_map_or (λ n. is_covering x y n.form) (node_of self.now.contents id) false }
    {
        match self.find(id) {
            Some(node) => form_covers(&node.form, x, y),
            None => false,
        }
    }
}

// Whether a form covers a point.
fn form_covers(form: &Option<Form>, x: i128, y: i128) -> bool
    requires x { unsigned_abs x < 2 ^ 123 }
    requires y { unsigned_abs y < 2 ^ 123 }
    ensures { result ≡ is_covering x y form.now }
{
    match form {
        Some(Form::Cover(area)) => area.covers(x, y),
        Some(Form::Outline(_) | Form::View(_) | Form::Port(_) | Form::MapName(_)) | None => false,
    }
}
