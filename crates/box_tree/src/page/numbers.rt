// Which numbers of items an edit gives and takes.
ghost use Rattle.std.specs.Prelude.{◌≡◌, IfOk, IfErr, IfSome, length};
ghost use Rattle.box_tree.specs.Contents.{node_of};
ghost use Rattle.box_tree.specs.Numbers.{HasSameItems};
ghost use Rattle.box_tree.specs.PageState.{tree_part};
ghost use Rattle.box_tree.specs.Planned.{IsPlanned};
ghost use Rattle.box_tree.specs.Renumbered.{back_by, CanGoBackBy};
ghost use Rattle.box_tree.specs.Touched.{item_count_of as item_count_of_kind, touched, gone_ids, HasRoomAmong, CanRenumber, IsRenumbered};

use super::Page;
use crate::edit::{Edit, EditFault};
use crate::items::{Earlier, Items, Spare};
use crate::kind::Kind;
use crate::plan::{Change, Plan};
use crate::tree::Tree;
use smallvec::SmallVec;

// A node that an edit gives other items: how many.
#[derive(Clone, Copy)]
pub(crate) struct Touched {
    pub(crate) id: u32,
    pub(crate) kind: Kind,
    pub(crate) count: usize,
}

impl Page {
    // All memory that giving and taking numbers takes for a plan.
    pub(super) fn spare_for(&mut self, plan: &Plan, edit: &Edit) -> Result<Spare, EditFault>
        requires { IsPlanned plan.now edit.now (tree_part self.old) }
        ensures contents { self.new.contents ≡ self.old.contents }
        ensures room { self.new.room ≡ self.old.room }
        ensures ids { self.new.ids ≡ self.old.ids }
        ensures items { HasSameItems self.old.items self.new.items }
        ensures can { IfOk result (λ spare. CanRenumber plan.now self.new.contents self.new.items self.new.item_room spare) }
        ensures memory { IfErr result (λ why. why ≡ EditFault.OutOfMemory) }
    {
        self.has_room(plan, edit);
        let alloc = *self.tree.allocator();
        let Some(node) = touched_node(&self.tree, plan) else {
            return Ok(Spare {
                list: SmallVec::new(alloc),
                earlier: Vec::with_capacity(alloc, gone_count(plan))?,
            });
        };
        self.items.reserve(node.id, node.count)?;
        Ok(Spare {
            list: SmallVec::with_capacity(alloc, node.count)?,
            earlier: Vec::with_capacity(alloc, 1)?,
        })
    }

    // A planned edit leaves no more items than a page may have.
    fn has_room(&self, _plan: &Plan, _edit: &Edit)
        requires { IsPlanned _plan.now _edit.now (tree_part self.now) }
        ensures { IfSome (touched _plan.now (node_of self.now.contents)) (HasRoomAmong self.now.items) }
    {
        self.tree.validity();
    }
}

// Gives and takes the numbers for a plan, and answers the lists that nodes had.
pub(super) fn renumber(items: &mut Items, tree: &Tree, plan: &Plan, spare: Spare) -> Vec<Earlier>
    requires { CanRenumber plan.now tree.now.contents items.old.items items.old.room spare }
    ensures renumbered { IsRenumbered plan.now (node_of tree.now.contents) items.old.items items.new.items }
    ensures can_go_back { CanGoBackBy result.items items.new.items }
    ensures back { HasSameItems items.old.items (back_by result.items items.new.items) }
{
    let alloc = *tree.allocator();
    let Spare { list, mut earlier } = spare;
    if let Some(node) = touched_node(tree, plan) {
        let had = items.resize(node.id, node.kind, node.count, list);
        earlier.push_reserved(Earlier {
            id: node.id,
            list: had,
        });
    } else if let Plan::RemoveNodes { ids, .. } = plan {
        items.take_all(alloc, ids, &mut earlier);
    }
    earlier
}

// The node that gets other items and is not gone.
fn touched_node(tree: &Tree, plan: &Plan) -> Option<Touched>
    ensures { result ≡ touched plan.now (node_of tree.now.contents) }
{
    match plan {
        Plan::AddNode { node, .. } => Some(Touched {
            id: node.id,
            kind: node.kind,
            count: item_count_of(node.kind, node.boxes.count()),
        }),
        Plan::ChangeNode {
            id,
            change: Change::Layout(layout),
        } => match tree.find(*id) {
            Some(node) => Some(Touched {
                id: *id,
                kind: node.kind,
                count: item_count_of(node.kind, layout.boxes.count()),
            }),
            None => None,
        },
        _ => None,
    }
}

// How many nodes go.
fn gone_count(plan: &Plan) -> usize
    ensures { result ≡ length (gone_ids plan.now) }
{
    match plan {
        Plan::RemoveNodes { ids, .. } => ids.len(),
        _ => 0,
    }
}

// How many items a node of a kind has that suits it with so many boxes.
fn item_count_of(kind: Kind, boxes: usize) -> usize
    ensures { result ≡ item_count_of_kind kind boxes }
{
    match kind {
        Kind::Image => if boxes == 0 { 0 } else { 2 },
        Kind::Shape => 1,
        _ => boxes,
    }
}
