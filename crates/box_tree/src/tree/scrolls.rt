// Scrolls of a node and of the viewport: their faults, their plans, and carrying them out.
ghost use Rattle.std.specs.Prelude.{◌≡◌, ◌≢◌, Some, IfOk, IfErr, ℕ};
ghost use Rattle.box_tree.specs.declared.edit.Edit.TheVariants.{Scroll, ScrollView};
ghost use Rattle.box_tree.specs.declared.plan.Plan.TheVariants.{ScrollViewport};
ghost use Rattle.box_tree.specs.Edited.{IsScrollInRange, IsScrollViewInRange, kind_takes_scroll, first_fault, edited, answer_of};
ghost use Rattle.box_tree.specs.Planned.{IsPlanned};
ghost use Rattle.box_tree.specs.Contents.{node_of};
ghost use Rattle.box_tree.specs.Touched.{seen_of, seen_after};
ghost use Rattle.box_tree.specs.Taken.{IsTaken, answer_by};

use super::Tree;
use crate::edit::{Edit, EditFault};
use crate::plan::{Change, Plan, Taken};
use crate::scroll::clamp;
use crate::suits::takes_scroll;
use fractions::Spot;
use std::snapshot::Snapshot;

impl Tree {
    // The first fault of a scroll, whatever the position.
    fn fault_of_scroll(&self, id: u32, _x: i64, _y: i64) -> Option<EditFault>
        ensures { result ≡ first_fault self.now.contents (Scroll id _x _y) }
    {
        if !self.has(id) {
            return Some(EditFault::Absent);
        }
        if !self.kind_takes_scroll(id) {
            return Some(EditFault::Kind);
        }
        None
    }

    // Whether the kind of the node may be scrolled.
    fn kind_takes_scroll(&self, id: u32) -> bool
        ensures { result ≡ kind_takes_scroll self.now.contents id }
    {
        match self.find(id) {
            Some(node) => takes_scroll(node.kind),
            None => false,
        }
    }

    // The plan of a scroll, which takes no memory.
    pub(super) fn plan_scroll(&self, id: u32, x: i64, y: i64) -> Result<Plan, EditFault>
        requires { IsScrollInRange id x y }
        ensures planned { IfOk result (λ plan. IsPlanned plan (Scroll id x y) self.now) }
        ensures first_fault { IfErr result (λ why. why ≢ EditFault.OutOfMemory → first_fault self.now.contents (Scroll id x y) ≡ Some why) }
    {
        if let Some(fault) = self.fault_of_scroll(id, x, y) {
            return Err(fault);
        }
        let Some(node) = self.find(id) else {
            return Err(EditFault::Absent);
        };
        let change = Change::Scroll(clamp(Spot { x, y }, node.max));
        Ok(Plan::ChangeNode { id, change })
    }

    // The plan of a scroll of the viewport, which has no fault and takes no memory.
    pub(super) fn plan_scroll_view(&self, x: i64, y: i64) -> Plan
        requires { IsScrollViewInRange x y }
        ensures { IsPlanned result (ScrollView x y) self.now }
    {
        Plan::ScrollViewport { to: Spot { x, y } }
    }

    // Carries out a planned scroll of the viewport.
    pub(super) fn scroll_view(&mut self, to: Spot, edit: &Snapshot<Edit>) -> Taken
        requires { IsPlanned (ScrollViewport to) edit.now.value self.old }
        ensures contents { self.new.contents ≡ edited self.old.contents edit.now.value }
        ensures room { self.new.room ≡ self.old.room }
        ensures taken { IsTaken result self.old.contents self.new.contents self.new.room }
        ensures answer { answer_by result ≡ answer_of self.old.contents edit.now.value }
        ensures seen { (k : ℕ) → seen_of (node_of self.new.contents k) ≡ seen_after (ScrollViewport to) k (node_of self.old.contents k) }
    {
        let scroll = clamp(to, self.frame.viewport.max);
        self.frame.viewport.scroll = scroll;
        Taken::Untouched
    }
}
