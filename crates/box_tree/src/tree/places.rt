// A place: its faults and its plan.
ghost use Rattle.std.specs.Prelude.{◌≡◌, ◌≢◌, ◌&&◌, ◌==◌, Some, IfOk, IfErr};
ghost use Rattle.box_tree.specs.declared.edit.Edit.TheVariants.{Place};
ghost use Rattle.box_tree.specs.Edited.{IsPlaceInRange, kind_may_be_placed, first_fault};
ghost use Rattle.box_tree.specs.Planned.{IsPlanned};
ghost use Rattle.box_tree.specs.Suits.{takes_place as is_placed, box_count_suits as count_suits};

use super::Tree;
use crate::edit::EditFault;
use crate::node::{Boxes, Node};
use crate::piece::PieceList;
use crate::plan::{Change, Layout, Plan};
use crate::scroll::clamp;
use crate::suits::{box_count_suits, takes_place};
use fractions::Spot;

impl Tree {
    // The first fault of a place.
    fn fault_of_place(
        &self,
        id: u32,
        anchor: Spot,
        boxes: &PieceList,
        max: Spot,
    ) -> Option<EditFault>
        ensures { result ≡ first_fault self.now.contents (Place id anchor boxes.now max) }
    {
        if !self.has(id) {
            return Some(EditFault::Absent);
        }
        if !self.kind_may_be_placed(id, boxes.0.len()) {
            return Some(EditFault::Kind);
        }
        if self.has_too_many_placed(id, anchor, boxes, max) {
            return Some(EditFault::Full);
        }
        None
    }

    // Whether the kind of the node may be placed, with so many boxes.
    fn kind_may_be_placed(&self, id: u32, count: usize) -> bool
        ensures { result ≡ kind_may_be_placed self.now.contents id count }
    {
        match self.find(id) {
            Some(node) => may_be_placed(node, count),
            None => false,
        }
    }

    // The plan of a place, with all its memory.
    pub(super) fn plan_place(
        &self,
        id: u32,
        anchor: Spot,
        boxes: &PieceList,
        max: Spot,
    ) -> Result<Plan, EditFault>
        requires { IsPlaceInRange id anchor boxes.now max }
        ensures planned { IfOk result (λ plan. IsPlanned plan (Place id anchor boxes.now max) self.now) }
        ensures first_fault { IfErr result (λ why. why ≢ EditFault.OutOfMemory → first_fault self.now.contents (Place id anchor boxes.now max) ≡ Some why) }
    {
        if let Some(fault) = self.fault_of_place(id, anchor, boxes, max) {
            return Err(fault);
        }
        let Some(node) = self.find(id) else {
            return Err(EditFault::Absent);
        };
        let change = Change::Layout(Layout {
            anchor,
            boxes: Boxes::from_pieces(*self.nodes.allocator(), &boxes.0)?,
            scroll: clamp(node.scroll, max),
            max,
        });
        Ok(Plan::ChangeNode { id, change })
    }
}

// Whether a node may be placed with so many boxes.
fn may_be_placed(node: &Node, count: usize) -> bool
    ensures { result ≡ (is_placed node.now.kind && count_suits (node.now.depth == 1) node.now.kind count) }
{
    takes_place(node.kind) && box_count_suits(node.depth == 1, node.kind, count)
}
