// A restyle: its faults and its plan.
ghost use Rattle.std.specs.Prelude.{◌≡◌, ◌≢◌, Some, IfOk, IfErr};
ghost use Rattle.box_tree.specs.declared.edit.Edit.TheVariants.{Restyle};
ghost use Rattle.box_tree.specs.Edited.{IsRestyleInRange, kind_takes_style, first_fault};
ghost use Rattle.box_tree.specs.Planned.{IsPlanned};

use super::Tree;
use crate::edit::EditFault;
use crate::plan::{Change, Plan};
use crate::suits::takes_style;
use computed_style::Style;

impl Tree {
    // The first fault of a restyle, whatever the style.
    fn fault_of_restyle(&self, id: u32, _style: &Style) -> Option<EditFault>
        ensures { result ≡ first_fault self.now.contents (Restyle id _style.now) }
    {
        if !self.has(id) {
            return Some(EditFault::Absent);
        }
        if !self.kind_takes_style(id) {
            return Some(EditFault::Kind);
        }
        None
    }

    // Whether the kind of the node may be given another style.
    fn kind_takes_style(&self, id: u32) -> bool
        ensures { result ≡ kind_takes_style self.now.contents id }
    {
        match self.find(id) {
            Some(node) => takes_style(node.kind),
            None => false,
        }
    }

    // The plan of a restyle, with all its memory.
    pub(super) fn plan_restyle(&self, id: u32, style: &Style) -> Result<Plan, EditFault>
        requires { IsRestyleInRange id style.now }
        ensures planned { IfOk result (λ plan. IsPlanned plan (Restyle id style.now) self.now) }
        ensures first_fault { IfErr result (λ why. why ≢ EditFault.OutOfMemory → first_fault self.now.contents (Restyle id style.now) ≡ Some why) }
    {
        if let Some(fault) = self.fault_of_restyle(id, style) {
            return Err(fault);
        }
        Ok(Plan::ChangeNode {
            id,
            change: Change::Style(style.copy()?),
        })
    }
}
