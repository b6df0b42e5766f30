// An add: its faults, its plan, and carrying it out.
ghost use Rattle.std.specs.Prelude.{◌≡◌, ◌≢◌, ◌+◌, ◌-◌, ◌^◌, ◌≤◌, ◌<◌, ◌==◌, ℕ, length, Some, None, IfOk, IfErr, if◌then◌else◌};
ghost use Rattle.std.specs.Option.{option_map_or, option_copied};
ghost use Rattle.box_tree.specs.declared.edit.Edit.TheVariants.{Add};
ghost use Rattle.box_tree.specs.Edited.{IsAddInRange, first_fault, edited, answer_of, ancestors_below};
ghost use Rattle.box_tree.specs.Forest.{node_count};
ghost use Rattle.box_tree.specs.Kept.{node_with, with_children};
ghost use Rattle.box_tree.specs.declared.node.Node.{Node};
ghost use Rattle.box_tree.specs.Nodes.{changed_at, HasSameRoom, ChangesAt};
ghost use Rattle.box_tree.specs.Planned.{with_child_at, HasSpareFor, MayInsertAt, IsPlanned};
ghost use Rattle.box_tree.specs.Suits.{node_suits};
ghost use Rattle.box_tree.specs.Contents.{node_of};
ghost use Rattle.box_tree.specs.Touched.{seen_of, seen_after};
ghost use Rattle.box_tree.specs.Taken.{without_child_at, CanTakeAdded, IsTaken, answer_by};
ghost use Rattle.box_tree.specs.declared.plan.Plan.TheVariants.{AddNode};

use super::Tree;
use crate::edit::{Edit, EditFault};
use crate::kind::Kind;
use crate::node::{Boxes, IdList, Node, ORIGIN};
use crate::nodes::Nodes;
use crate::piece::PieceList;
use crate::plan::{Frame, Plan, Taken};
use crate::suits::node_suits;
use crate::sums::Sums;
use computed_style::Style;
use std::alloc::{AllocError, Global};
use std::mem::replace;
use std::snapshot::Snapshot;

// The greatest depth.
pub(super) const LEVELS: u32 = 256;

// What a node below another one, or below none, has to fit into.
#[derive(Clone, Copy)]
pub(super) struct Seat {
    // how many children there are
    pub(super) children: usize,
    // how deep the other one is, and 0 where there is none
    pub(super) depth: u32,
}

impl Tree {
    // The first fault of an add.
    fn fault_of_add(
        &self,
        parent: u32,
        at: u32,
        kind: Kind,
        boxes: &PieceList,
        style: &Style,
    ) -> Option<EditFault>
        ensures { result ≡ first_fault self.now.contents (Add parent at kind boxes.now style.now) }
    {
        let above = self.find(parent);
        if parent != 0 && above.is_none() {
            return Some(EditFault::Absent);
        }
        if parent == 0 && self.nodes.len() > 0 {
            return Some(EditFault::Root);
        }
        if !self.node_suits_below(parent, kind, style, boxes) {
            return Some(EditFault::Kind);
        }
        let seat = seat_below(above);
        if seat.children < at as usize {
            return Some(EditFault::Place);
        }
        if seat.depth >= LEVELS {
            return Some(EditFault::Deep);
        }
        if self.is_full_for(boxes.0.len()) {
            return Some(EditFault::Full);
        }
        None
    }

    // Whether a new node suits this parent, which is none for 0.
    fn node_suits_below(&self, parent: u32, kind: Kind, style: &Style, boxes: &PieceList) -> bool
        ensures { result ≡ node_suits (ancestors_below self.now.contents parent) kind style.now boxes.now }
    {
        node_suits(self.find(parent), kind, style, boxes)
    }

    // The plan of an add, with all its memory.
    pub(super) fn plan_add(
        &mut self,
        parent: u32,
        at: u32,
        kind: Kind,
        boxes: &PieceList,
        style: &Style,
    ) -> Result<Plan, EditFault>
        requires { IsAddInRange boxes.now style.now }
        ensures contents { self.new.contents ≡ self.old.contents }
        ensures room { self.old.room ≤ self.new.room }
        ensures planned { IfOk result (λ plan. IsPlanned plan (Add parent at kind boxes.now style.now) self.new) }
        ensures first_fault { IfErr result (λ why. why ≢ EditFault.OutOfMemory → first_fault self.old.contents (Add parent at kind boxes.now style.now) ≡ Some why) }
    {
        if let Some(fault) = self.fault_of_add(parent, at, kind, boxes, style) {
            return Err(fault);
        }
        self.nodes.reserve(self.frame.next)?;
        self.plan_of_add(parent, at, kind, boxes, style)
    }

    // The same where there is no fault, and room in the list of nodes.
    fn plan_of_add(
        &self,
        parent: u32,
        at: u32,
        kind: Kind,
        boxes: &PieceList,
        style: &Style,
    ) -> Result<Plan, EditFault>
        requires range { IsAddInRange boxes.now style.now }
        requires faultless { first_fault self.now.contents (Add parent at kind boxes.now style.now) ≡ None }
        requires room { node_count self.now.contents.tree < self.now.room }
        requires placed { self.now.contents.next < self.now.ids }
        ensures planned { IfOk result (λ plan. IsPlanned plan (Add parent at kind boxes.now style.now) self.now) }
        ensures memory { IfErr result (λ why. why ≡ EditFault.OutOfMemory) }
    {
        let alloc = *self.nodes.allocator();
        let above = self.find(parent);
        let depth = seat_below(above).depth + 1;
        let spare = spare_below(alloc, above)?;
        let node = Node {
            id: self.frame.next,
            kind,
            parent,
            children: IdList::new(alloc),
            depth,
            style: style.copy()?,
            anchor: ORIGIN,
            boxes: Boxes::from_pieces(alloc, &boxes.0)?,
            form: None,
            scroll: ORIGIN,
            max: ORIGIN,
        };
        Ok(Plan::AddNode {
            node,
            place: at,
            spare,
        })
    }

    // Carries out a planned add.
    pub(super) fn add(
        &mut self,
        node: Node,
        place: u32,
        spare: Option<Vec<u32>>,
        edit: &Snapshot<Edit>,
    ) -> Taken
        requires { IsPlanned (AddNode node place spare) edit.now.value self.old }
        ensures contents { self.new.contents ≡ edited self.old.contents edit.now.value }
        ensures room { self.new.room ≡ self.old.room }
        ensures taken { IsTaken result self.old.contents self.new.contents self.new.room }
        ensures answer { answer_by result ≡ answer_of self.old.contents edit.now.value }
        ensures seen { (k : ℕ) → seen_of (node_of self.new.contents k) ≡ seen_after (AddNode node place spare) k (node_of self.old.contents k) }
    {
        let id = node.id;
        let parent = node.parent;
        give_child(&mut self.nodes, parent, place, id, spare);
        self.frame = frame_with(self.frame, id, parent, node.boxes.count());
        self.nodes.put(node);
        Taken::Added { id, parent, place }
    }
}

// The frame with a node more, which has no form, and is the root where its parent is 0.
fn frame_with(frame: Frame, id: u32, parent: u32, boxes: usize) -> Frame
    requires ids { frame.next < 2 ^ 32 - 1 }
    requires boxes { frame.sums.boxes + boxes ≤ 262144 }
    ensures boxes { result.sums.boxes ≡ boxes + frame.sums.boxes }
    ensures vertices { result.sums.vertices ≡ frame.sums.vertices }
    ensures root { result.root ≡ (if parent == 0 then Some id else frame.root) }
    ensures viewport { result.viewport ≡ frame.viewport }
    ensures next { result.next ≡ frame.next + 1 }
{
    Frame {
        sums: Sums {
            boxes: frame.sums.boxes + boxes,
            vertices: frame.sums.vertices,
        },
        root: if parent == 0 { Some(id) } else { frame.root },
        viewport: frame.viewport,
        next: frame.next + 1,
    }
}

// Takes the node of an id out, and its id out of the children of its parent.
pub(super) fn take_added(nodes: &mut Nodes, id: u32, parent: u32, place: u32)
    requires { CanTakeAdded id parent place (node_with nodes.old.nodes) }
    ensures looked_up { (k : ℕ) → node_with nodes.new.nodes k ≡ (if id == k then None else changed_at parent (without_child_at place) k (node_with nodes.old.nodes k)) }
    ensures count { length nodes.new.nodes + 1 ≡ length nodes.old.nodes }
    ensures same_room { HasSameRoom nodes.old nodes.new }
{
    nodes.take(id);
    take_child(nodes, parent, place);
}

// The node with this id, where it is there, gets one more child at a place, in the spare room where it is given.
fn give_child(nodes: &mut Nodes, id: u32, place: u32, child: u32, spare: Option<Vec<u32>>)
    requires { MayInsertAt (node_with nodes.old.nodes id) place spare }
    ensures { ChangesAt nodes.old nodes.new id (with_child_at place child) }
{
    if nodes.find(id).is_none() {
        return;
    }
    let mut node = nodes.take(id);
    node.children.insert(place as usize, child, spare);
    nodes.put(node);
}

// The node with this id, where it is there, loses the child at a place.
fn take_child(nodes: &mut Nodes, id: u32, place: u32)
    requires { (n : Node) → node_with nodes.old.nodes id ≡ Some n → place < length n.children }
    ensures { ChangesAt nodes.old nodes.new id (without_child_at place) }
{
    if nodes.find(id).is_none() {
        return;
    }
    let mut node = nodes.take(id);
    node.children.remove(place as usize);
    nodes.put(node);
}

// The seat below a node, or below none.
pub(super) fn seat_below(above: Option<&Node>) -> Seat
    ensures children { result.children ≡ option_map_or (λ n. length n.children) (option_copied above.entry) 0 }
    ensures depth { result.depth ≡ option_map_or (λ n. n.depth) (option_copied above.entry) 0 }
{
    match above {
        Some(node) => Seat {
            children: node.children.len(),
            depth: node.depth,
        },
        None => Seat {
            children: 0,
            depth: 0,
        },
    }
}

// Room for twice the children of a node, where one more might find none.
fn spare_below(alloc: Global, above: Option<&Node>) -> Result<Option<Vec<u32>>, AllocError>
    ensures { IfOk result (λ spare. HasSpareFor (option_copied above.entry) spare) }
{
    match above {
        Some(node) => node.children.spare(alloc),
        None => Ok(None),
    }
}

// The node with this id gets other children, where it is there, and gives up those that it had.
pub(super) fn give_children(nodes: &mut Nodes, id: u32, children: IdList) -> IdList
    ensures changed { ChangesAt nodes.old nodes.new id (with_children children) }
    ensures had { result ≡ option_map_or (λ n. n.children) (node_with nodes.old.nodes id) children }
{
    if nodes.find(id).is_none() {
        return children;
    }
    let mut node = nodes.take(id);
    let had = replace(&mut node.children, children);
    nodes.put(node);
    had
}
