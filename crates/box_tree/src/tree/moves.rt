// A move: its faults, its plan, and carrying it out.
ghost use Rattle.std.specs.Prelude.{◌≡◌, ◌≢◌, ◌+◌, ◌≤◌, ◌||◌, ◌==◌, ℕ, not, true, nat_lt, length, None, Some, IfOk, IfErr, IsSome};
ghost use Rattle.std.specs.Option.{option_map_or, option_copied};
ghost use Rattle.box_tree.specs.declared.node.Node.{Node};
ghost use Rattle.box_tree.specs.declared.edit.Edit.TheVariants.{Move};
ghost use Rattle.box_tree.specs.declared.plan.Plan.TheVariants.{MoveNodes};
ghost use Rattle.box_tree.specs.Contents.{tree_of, has_id, node_of, IsValid};
ghost use Rattle.box_tree.specs.Edited.{IsId, kind_may_move, first_fault, edited, answer_of, ancestors_below, child_count, page_without, is_root};
ghost use Rattle.box_tree.specs.Forest.{height_of, occurrences};
ghost use Rattle.box_tree.specs.Kept.{node_with, with_children};
ghost use Rattle.box_tree.specs.Nodes.{changed_at, HasSameRoom, ChangesAt};
ghost use Rattle.box_tree.specs.Planned.{ids_without, relocated, relocated_at, moved_at, back_from, MayRelocate, MayRelocateAll, IsPlaceFor, IsPlanned};
ghost use Rattle.box_tree.specs.Touched.{seen_of, seen_after};
ghost use Rattle.box_tree.specs.Taken.{IsTaken, answer_by};

use super::Tree;
use super::adds::{LEVELS, give_children, seat_below};
use super::removes::{ids_of_tree, siblings_without};
use crate::edit::{Edit, EditFault};
use crate::node::{IdList, Node};
use crate::nodes::Nodes;
use crate::plan::{Plan, Relocation, Taken};
use crate::suits::kind_suits;
use std::snapshot::Snapshot;

impl Tree {
    // The plan of a move, with all its memory.
    pub(super) fn plan_move(&self, id: u32, parent: u32, at: u32) -> Result<Plan, EditFault>
        requires { IsId id }
        ensures planned { IfOk result (λ plan. IsPlanned plan (Move id parent at) self.now) }
        ensures first_fault { IfErr result (λ why. why ≢ EditFault.OutOfMemory → first_fault self.now.contents (Move id parent at) ≡ Some why) }
    {
        if let Some(fault) = self.fault_of_move(id, parent, at) {
            return Err(fault);
        }
        self.plan_of_move(id, parent, at)
    }

    // The first fault of a move.
    fn fault_of_move(&self, id: u32, parent: u32, at: u32) -> Option<EditFault>
        ensures { result ≡ first_fault self.now.contents (Move id parent at) }
    {
        if self.lacks(id, parent) {
            return Some(EditFault::Absent);
        }
        if self.involves_root(id, parent) {
            return Some(EditFault::Root);
        }
        if !self.kind_may_move(id, parent) {
            return Some(EditFault::Kind);
        }
        if self.goes_below_itself(id, parent) {
            return Some(EditFault::Cycle);
        }
        if self.is_beyond(id, parent, at) {
            return Some(EditFault::Place);
        }
        if self.is_too_deep(id, parent) {
            return Some(EditFault::Deep);
        }
        None
    }

    // Whether the kind of the node may stand below the new parent.
    fn kind_may_move(&self, id: u32, parent: u32) -> bool
        ensures { result ≡ kind_may_move self.now.contents id parent }
    {
        match self.find(id) {
            Some(node) => kind_suits(self.find(parent), node.kind),
            None => false,
        }
    }

    // Whether the new parent is in the moved tree: whether the node is the parent or above it.
    fn goes_below_itself(&self, id: u32, parent: u32) -> bool
        requires { has_id self.now.contents id ≡ true }
        ensures { result ≡ nat_lt 0 (occurrences (tree_of self.now.contents id) parent) }
    {
        self.validity();
        let mut above = parent;
        while let Some(node) = self.find(above) {
            if above == id {
                return true;
            }
            above = node.parent;
        }
        false
    }

    // Whether the place is above the number of the other children of the new parent.
    fn is_beyond(&self, id: u32, parent: u32, at: u32) -> bool
        requires there { has_id self.now.contents parent ≡ true }
        requires apart { occurrences (tree_of self.now.contents id) parent ≡ 0 }
        ensures { result ≡ nat_lt (child_count (page_without self.now.contents id) parent) at }
    {
        self.validity();
        others_below(self.find(parent), id) < at as usize
    }

    // Whether a node of the moved tree would be too deep below the new parent.
    fn is_too_deep(&self, id: u32, parent: u32) -> bool
        ensures { result ≡ nat_lt 256 (length (ancestors_below self.now.contents parent) + height_of (tree_of self.now.contents id)) }
    {
        let depth = seat_below(self.find(parent)).depth;
        depth > LEVELS - self.levels_of(id)
    }

    // Whether the node or the new parent is not in the page.
    fn lacks(&self, id: u32, parent: u32) -> bool
        ensures { result ≡ (not (has_id self.now.contents id) || not (parent == 0 || has_id self.now.contents parent)) }
    {
        !self.has(id) || !(parent == 0 || self.has(parent))
    }

    // Whether the root is moved, or a node would become one.
    fn involves_root(&self, id: u32, parent: u32) -> bool
        ensures { result ≡ (parent == 0 || is_root self.now.contents id) }
    {
        parent == 0 || self.has_root(id)
    }

    // Whether the node is the root.
    fn has_root(&self, id: u32) -> bool
        ensures { result ≡ is_root self.now.contents id }
    {
        match self.root() {
            Some(root) => root == id,
            None => false,
        }
    }

    // How many levels the tree of a node has.
    fn levels_of(&self, id: u32) -> u32
        ensures levels { result ≡ height_of (tree_of self.now.contents id) }
        ensures most { result ≤ 256 }
    {
        self.validity();
        levels(self, id)
    }

    // The plan of a move without a fault.
    fn plan_of_move(&self, id: u32, parent: u32, at: u32) -> Result<Plan, EditFault>
        requires range { IsId id }
        requires faultless { first_fault self.now.contents (Move id parent at) ≡ None }
        ensures planned { IfOk result (λ plan. IsPlanned plan (Move id parent at) self.now) }
        ensures memory { IfErr result (λ why. why ≡ EditFault.OutOfMemory) }
    {
        self.validity();
        let alloc = *self.nodes.allocator();
        let place = self.place_in(id, parent);
        let ids = ids_of_tree(alloc, self, id)?;
        let siblings = siblings_without(alloc, self.find(place.from), id)?;
        let others = siblings_without(alloc, self.find(parent), id)?;
        let children = others.with(alloc, at as usize, id)?;
        Ok(Plan::MoveNodes {
            place,
            siblings,
            children,
            ids,
        })
    }

    // Where a node of the page goes.
    fn place_in(&self, id: u32, parent: u32) -> Relocation
        requires valid { IsValid self.now.contents }
        requires there { IsSome (node_of self.now.contents id) }
        ensures { IsPlaceFor self.now.contents id parent result }
    {
        match self.find(id) {
            Some(node) => Relocation {
                id,
                from: node.parent,
                parent,
                old_depth: node.depth,
                depth: seat_below(self.find(parent)).depth + 1,
            },
            None => unreachable!(),
        }
    }

    // Carries out a planned move.
    pub(super) fn relocate(
        &mut self,
        place: Relocation,
        siblings: IdList,
        children: IdList,
        ids: IdList,
        edit: &Snapshot<Edit>,
    ) -> Taken
        requires { IsPlanned (MoveNodes place siblings children ids) edit.now.value self.old }
        ensures contents { self.new.contents ≡ edited self.old.contents edit.now.value }
        ensures room { self.new.room ≡ self.old.room }
        ensures taken { IsTaken result self.old.contents self.new.contents self.new.room }
        ensures answer { answer_by result ≡ answer_of self.old.contents edit.now.value }
        ensures seen { (k : ℕ) → seen_of (node_of self.new.contents k) ≡ seen_after (MoveNodes place siblings children ids) k (node_of self.old.contents k) }
    {
        let had = exchange_places(&mut self.nodes, place, siblings, children, &ids);
        Taken::Moved {
            place: way_back(place),
            siblings: had.children,
            children: had.siblings,
            ids,
        }
    }
}

// The lists of children that a move exchanges.
#[derive(Drop)]
pub(super) struct Lists {
    // those of the old parent
    siblings: IdList,
    // those of the new parent
    children: IdList,
}

// Gives the old parent and then the new one their children, and relocates the nodes of these ids. It answers what the
// parents had.
pub(super) fn exchange_places(
    nodes: &mut Nodes,
    place: Relocation,
    siblings: IdList,
    children: IdList,
    ids: &IdList,
) -> Lists
    requires { MayRelocateAll place ids.now (node_with nodes.old.nodes) }
    ensures looked_up { (k : ℕ) → node_with nodes.new.nodes k ≡ moved_at place siblings children ids.now k (node_with nodes.old.nodes k) }
    ensures count { length nodes.new.nodes ≡ length nodes.old.nodes }
    ensures same_room { HasSameRoom nodes.old nodes.new }
    ensures siblings { result.siblings ≡ option_map_or (λ n. n.children) (node_with nodes.old.nodes place.from) siblings }
    ensures children { result.children ≡ option_map_or (λ n. n.children) (changed_at place.from (with_children siblings) place.parent (node_with nodes.old.nodes place.parent)) children }
{
    let siblings = give_children(nodes, place.from, siblings);
    let children = give_children(nodes, place.parent, children);
    relocate_all(nodes, place, ids);
    Lists { siblings, children }
}

// The way back.
fn way_back(place: Relocation) -> Relocation
    ensures { result ≡ back_from place }
{
    Relocation {
        id: place.id,
        from: place.parent,
        parent: place.from,
        old_depth: place.depth,
        depth: place.old_depth,
    }
}

// How many children a node has beside one, and 0 where there is no node.
fn others_below(above: Option<&Node>, id: u32) -> usize
    ensures { result ≡ option_map_or (λ n. length (ids_without id n.children)) (option_copied above.entry) 0 }
{
    match above {
        Some(node) => node.children.count_without(id),
        None => 0,
    }
}

// How many levels the tree of a node has.
fn levels(tree: &Tree, id: u32) -> u32
    requires { IsValid tree.now.contents }
    ensures levels { result ≡ height_of (tree_of tree.now.contents id) }
    ensures most { result ≤ 256 }
{
    let Some(node) = tree.find(id) else {
        return 0;
    };
    let mut below: u32 = 0;
    for child in node.children.as_slice() {
        let deep = levels(tree, *child);
        below = below.max(deep);
    }
    below + 1
}

// Each node of these ids that is there gets its new depth, and the moved one its new parent.
fn relocate_all(nodes: &mut Nodes, place: Relocation, ids: &IdList)
    requires { MayRelocateAll place ids.now (node_with nodes.old.nodes) }
    ensures looked_up { (k : ℕ) → node_with nodes.new.nodes k ≡ relocated_at place ids.now k (node_with nodes.old.nodes k) }
    ensures count { length nodes.new.nodes ≡ length nodes.old.nodes }
    ensures same_room { HasSameRoom nodes.old nodes.new }
{
    for id in ids.as_slice() {
        relocate_node(nodes, place, *id);
    }
}

// The node of an id gets its new depth, where it is there, and the one that the move names its new parent.
fn relocate_node(nodes: &mut Nodes, place: Relocation, id: u32)
    requires { (n : Node) → node_with nodes.old.nodes id ≡ Some n → MayRelocate place n }
    ensures { ChangesAt nodes.old nodes.new id (relocated place) }
{
    if nodes.find(id).is_none() {
        return;
    }
    let mut node = nodes.take(id);
    reseat(&mut node, place);
    nodes.put(node);
}

// A node gets its new depth, and the one that the move names its new parent.
fn reseat(node: &mut Node, place: Relocation)
    requires { MayRelocate place node.old }
    ensures { node.new ≡ relocated place node.old }
{
    node.depth = node.depth - place.old_depth + place.depth;
    if node.id == place.id {
        node.parent = place.parent;
    }
}
