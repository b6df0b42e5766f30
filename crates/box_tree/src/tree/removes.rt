// A remove: its fault, its plan, and carrying it out.
ghost use Rattle.std.specs.Prelude.{◌≡◌, ◌≢◌, ◌+◌, ◌≤◌, ◌<◌, ◌==◌, ◌++◌, ℕ, [], length, true, None, Some, IsSome, IfOk, IfErr, vec_len, vec_capacity, if◌then◌else◌};
ghost use Rattle.std.specs.Option.{option_or, option_map_or, option_copied};
ghost use Rattle.box_tree.specs.declared.edit.Edit.TheVariants.{Remove};
ghost use Rattle.box_tree.specs.Contents.{tree_of, IsValid, node_of};
ghost use Rattle.box_tree.specs.Edited.{IsId, first_fault, edited, answer_of};
ghost use Rattle.box_tree.specs.Forest.{ids_in};
ghost use Rattle.box_tree.specs.Kept.{node_with, with_children};
ghost use Rattle.box_tree.specs.Nodes.{changed_at, HasSameRoom};
ghost use Rattle.box_tree.specs.Planned.{ids_without, is_among, times_in, IsPlanned};
ghost use Rattle.box_tree.specs.Touched.{seen_of, seen_after};
ghost use Rattle.box_tree.specs.Taken.{ids_of, AreFrom, CanBePut, IsTaken, answer_by};
ghost use Rattle.box_tree.specs.declared.plan.Plan.TheVariants.{RemoveNodes};

use super::Tree;
use super::adds::give_children;
use crate::edit::{Edit, EditFault};
use crate::node::{IdList, Node};
use crate::nodes::Nodes;
use crate::plan::{Plan, Taken};
use crate::sums::sums_of_all;
use std::alloc::{AllocError, Global};
use std::snapshot::Snapshot;

impl Tree {
    // The plan of a remove, with all its memory.
    pub(super) fn plan_remove(&self, id: u32) -> Result<Plan, EditFault>
        requires { IsId id }
        ensures planned { IfOk result (λ plan. IsPlanned plan (Remove id) self.now) }
        ensures first_fault { IfErr result (λ why. why ≢ EditFault.OutOfMemory → first_fault self.now.contents (Remove id) ≡ Some why) }
    {
        let alloc = *self.nodes.allocator();
        let Some(node) = self.find(id) else {
            return Err(EditFault::Absent);
        };
        let parent = node.parent;
        let siblings = siblings_without(alloc, self.find(parent), id)?;
        let ids = ids_of_tree(alloc, self, id)?;
        let gone = Vec::with_capacity(alloc, ids.as_slice().len())?;
        Ok(Plan::RemoveNodes {
            parent,
            siblings,
            ids,
            gone,
        })
    }

    // Carries out a planned remove.
    pub(super) fn remove(
        &mut self,
        parent: u32,
        siblings: IdList,
        ids: &IdList,
        gone: Vec<Node>,
        edit: &Snapshot<Edit>,
    ) -> Taken
        requires { IsPlanned (RemoveNodes parent siblings ids.now gone) edit.now.value self.old }
        ensures contents { self.new.contents ≡ edited self.old.contents edit.now.value }
        ensures room { self.new.room ≡ self.old.room }
        ensures taken { IsTaken result self.old.contents self.new.contents self.new.room }
        ensures answer { answer_by result ≡ answer_of self.old.contents edit.now.value }
        ensures seen { (k : ℕ) → seen_of (node_of self.new.contents k) ≡ seen_after (RemoveNodes parent siblings ids.now gone) k (node_of self.old.contents k) }
    {
        let siblings = give_children(&mut self.nodes, parent, siblings);
        let mut nodes = gone;
        take_all(&mut self.nodes, ids, &mut nodes);
        self.frame.sums = self.frame.sums.without(sums_of_all(&nodes));
        self.frame.root = root_without(self.frame.root, parent);
        Taken::Removed {
            parent,
            siblings,
            nodes,
        }
    }
}

// The root once a node of this parent goes: none where that is the root.
fn root_without(root: Option<u32>, parent: u32) -> Option<u32>
    ensures { result ≡ (if parent == 0 then None else root) }
{
    if parent == 0 { None } else { root }
}

// Takes the nodes of these ids out, into a list with room for them.
fn take_all(nodes: &mut Nodes, ids: &IdList, gone: &mut Vec<Node>)
    requires there { (k : ℕ) → is_among ids.now k ≡ true → IsSome (node_with nodes.old.nodes k) }
    requires distinct { (k : ℕ) → times_in k ids.now ≤ 1 }
    requires none { gone.old.items ≡ [] }
    requires room { vec_len gone.old + length ids.now ≤ vec_capacity gone.old }
    ensures looked_up { (k : ℕ) → node_with nodes.new.nodes k ≡ (if is_among ids.now k then None else node_with nodes.old.nodes k) }
    ensures count { length nodes.new.nodes + length ids.now ≡ length nodes.old.nodes }
    ensures same_room { HasSameRoom nodes.old nodes.new }
    ensures ids { ids_of gone.new.items ≡ ids.now }
    ensures nodes { AreFrom (node_with nodes.old.nodes) gone.new.items }
{
    for id in ids.as_slice() {
        gone.push_reserved(nodes.take(*id));
    }
}

// Puts nodes back that were taken out, and gives their parent these children.
pub(super) fn put_removed(nodes: &mut Nodes, parent: u32, siblings: IdList, gone: Vec<Node>)
    requires { CanBePut gone.items (node_with nodes.old.nodes) (length nodes.old.nodes) nodes.old.room (λ k. k < nodes.old.ids) }
    ensures looked_up { (k : ℕ) → node_with nodes.new.nodes k ≡ changed_at parent (with_children siblings) k (option_or (node_with nodes.old.nodes k) (node_with gone.items k)) }
    ensures count { length nodes.new.nodes ≡ length nodes.old.nodes + length gone.items }
    ensures same_room { HasSameRoom nodes.old nodes.new }
{
    put_all(nodes, gone);
    give_children(nodes, parent, siblings);
}

// Puts nodes beside the others.
fn put_all(nodes: &mut Nodes, gone: Vec<Node>)
    requires { CanBePut gone.items (node_with nodes.old.nodes) (length nodes.old.nodes) nodes.old.room (λ k. k < nodes.old.ids) }
    ensures looked_up { (k : ℕ) → node_with nodes.new.nodes k ≡ option_or (node_with nodes.old.nodes k) (node_with gone.items k) }
    ensures count { length nodes.new.nodes ≡ length nodes.old.nodes + length gone.items }
    ensures same_room { HasSameRoom nodes.old nodes.new }
{
    let mut gone = gone;
    while let Some(node) = gone.pop() {
        nodes.put(node);
    }
}

// The children of a node without one of them, and none where there is no node.
pub(super) fn siblings_without(
    alloc: Global,
    above: Option<&Node>,
    id: u32,
) -> Result<IdList, AllocError>
    ensures { IfOk result (λ list. list ≡ option_map_or (λ n. ids_without id n.children) (option_copied above.entry) []) }
{
    match above {
        Some(node) => node.children.without(alloc, id),
        None => Ok(IdList::new(alloc)),
    }
}

// The ids of a node and of all below it, in tree order.
pub(super) fn ids_of_tree(alloc: Global, tree: &Tree, id: u32) -> Result<IdList, AllocError>
    ensures { IfOk result (λ ids. ids ≡ ids_in (tree_of tree.now.contents id)) }
{
    tree.validity();
    let mut ids = Vec::new(alloc);
    push_ids(tree, id, &mut ids)?;
    IdList::from_vec(ids)
}

// Appends the ids of a node and of all below it, in tree order.
fn push_ids(tree: &Tree, id: u32, ids: &mut Vec<u32>) -> Result<(), AllocError>
    requires { IsValid tree.now.contents }
    ensures { IfOk result (λ _. ids.new.items ≡ ids.old.items ++ ids_in (tree_of tree.now.contents id)) }
{
    let Some(node) = tree.find(id) else {
        return Ok(());
    };
    ids.push(id)?;
    for child in node.children.as_slice() {
        push_ids(tree, *child, ids)?;
    }
    Ok(())
}
