// A resize: its plan, and carrying it out.
ghost use Rattle.std.specs.Prelude.{◌≡◌, ℕ};
ghost use Rattle.box_tree.specs.declared.edit.Edit.TheVariants.{Resize};
ghost use Rattle.box_tree.specs.declared.plan.Plan.TheVariants.{ResizeViewport};
ghost use Rattle.box_tree.specs.Edited.{IsResizeInRange, edited, answer_of};
ghost use Rattle.box_tree.specs.Planned.{IsPlanned};
ghost use Rattle.box_tree.specs.Contents.{node_of};
ghost use Rattle.box_tree.specs.Touched.{seen_of, seen_after};
ghost use Rattle.box_tree.specs.Taken.{IsTaken, answer_by};

use super::Tree;
use crate::edit::Edit;
use crate::plan::{Plan, Taken};
use crate::scroll::clamp;
use crate::viewport::Viewport;
use fractions::Spot;
use std::snapshot::Snapshot;

impl Tree {
    // The plan of a resize, which has no fault and takes no memory.
    pub(super) fn plan_resize(&self, w: i64, h: i64, max: Spot) -> Plan
        requires { IsResizeInRange w h max }
        ensures { IsPlanned result (Resize w h max) self.now }
    {
        Plan::ResizeViewport { w, h, max }
    }

    // Carries out a planned resize.
    pub(super) fn resize(&mut self, w: i64, h: i64, max: Spot, edit: &Snapshot<Edit>) -> Taken
        requires { IsPlanned (ResizeViewport w h max) edit.now.value self.old }
        ensures contents { self.new.contents ≡ edited self.old.contents edit.now.value }
        ensures room { self.new.room ≡ self.old.room }
        ensures taken { IsTaken result self.old.contents self.new.contents self.new.room }
        ensures answer { answer_by result ≡ answer_of self.old.contents edit.now.value }
        ensures seen { (k : ℕ) → seen_of (node_of self.new.contents k) ≡ seen_after (ResizeViewport w h max) k (node_of self.old.contents k) }
    {
        let scroll = clamp(self.frame.viewport.scroll, max);
        self.frame.viewport = Viewport { w, h, scroll, max };
        Taken::Untouched
    }
}
