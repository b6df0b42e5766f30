// A reshape: its faults and its plan.
ghost use Rattle.std.specs.Prelude.{◌≡◌, ◌≢◌, Some, IfOk, IfErr};
ghost use Rattle.box_tree.specs.declared.edit.Edit.TheVariants.{Reshape};
ghost use Rattle.box_tree.specs.Edited.{IsReshapeInRange, kind_takes_form, first_fault};
ghost use Rattle.box_tree.specs.Planned.{IsPlanned};

use super::Tree;
use crate::edit::EditFault;
use crate::form::Form;
use crate::plan::{Change, Plan};
use crate::suits::takes_form;

impl Tree {
    // The first fault of a reshape.
    fn fault_of_reshape(&self, id: u32, form: &Form) -> Option<EditFault>
        ensures { result ≡ first_fault self.now.contents (Reshape id form.now) }
    {
        if !self.has(id) {
            return Some(EditFault::Absent);
        }
        if !self.kind_takes_form(id, form) {
            return Some(EditFault::Kind);
        }
        if self.has_too_many_reshaped(id, form) {
            return Some(EditFault::Full);
        }
        None
    }

    // Whether the kind of the node may be given this form.
    fn kind_takes_form(&self, id: u32, form: &Form) -> bool
        ensures { result ≡ kind_takes_form self.now.contents id form.now }
    {
        match self.find(id) {
            Some(node) => takes_form(node.kind, form),
            None => false,
        }
    }

    // The plan of a reshape, with all its memory.
    pub(super) fn plan_reshape(&self, id: u32, form: &Form) -> Result<Plan, EditFault>
        requires { IsReshapeInRange id form.now }
        ensures planned { IfOk result (λ plan. IsPlanned plan (Reshape id form.now) self.now) }
        ensures first_fault { IfErr result (λ why. why ≢ EditFault.OutOfMemory → first_fault self.now.contents (Reshape id form.now) ≡ Some why) }
    {
        if let Some(fault) = self.fault_of_reshape(id, form) {
            return Err(fault);
        }
        Ok(Plan::ChangeNode {
            id,
            change: Change::Form(Some(form.copy()?)),
        })
    }
}
