// The nodes of a page with its viewport, and the edits that change them.
ghost use Rattle.std.specs.Prelude.{◌≡◌, ◌≢◌, ◌+◌, ◌≤◌, ◌↔◌, ◌^◌, ℕ, pos, ◌≤ℤ◌, Some, IsNone, IfOk, IfErr};
ghost use Rattle.std.specs.Option.{option_to_list, option_copied};
ghost use Rattle.box_tree.specs.Contents.{empty_page, has_id, node_of, IsValid};
ghost use Rattle.box_tree.specs.Edited.{IsInRange, first_fault, edited, answer_of};
ghost use Rattle.box_tree.specs.Forest.{roots_of, node_count};
ghost use Rattle.box_tree.specs.Planned.{IsPlanned};
ghost use Rattle.box_tree.specs.Taken.{IsFrame, IsTaken, answer_by};
ghost use Rattle.box_tree.specs.Touched.{seen_of, seen_after};

use self::reverts::put_back;
use crate::edit::{Edit, EditFault};
use crate::node::{Node, ORIGIN};
use crate::nodes::Nodes;
use crate::plan::{Frame, Plan, Taken};
use crate::sums::NOTHING;
use crate::viewport::Viewport;
use std::alloc::Global;
use std::marker::Model;
use std::snapshot::Snapshot;

mod adds;
mod boxes;
mod changes;
mod moves;
mod places;
mod removes;
mod reshapes;
mod resizes;
mod restyles;
mod reverts;
mod scrolls;

pub(crate) use self::reverts::answer_by;

/// The nodes of a page, in a tree or none, with its viewport.
#[derive(Drop)]
pub(crate) struct Tree {
    nodes: Nodes,
    frame: Frame,
}

impl Model for Tree {
    ghost use Rattle.std.specs.Coded.{Coded, codes};
    ghost use Rattle.box_tree.specs.Forest.{Label};
    ghost use Rattle.box_tree.specs.ForestCode.{forest_code};
    ghost use Rattle.box_tree.specs.TreeState.{TreeState};

    ghost Value = { TreeState };

    ghost coded = { let label : Coded Label = Prim.hlevel codes in Prim.hlevel (codes, forest_code label) };

    ghost use Rattle.box_tree.specs.Kept.{node_with, page_of};
    ghost use Rattle.box_tree.specs.Counted.{IsCounted};

    ghost view = { λ p. record { contents = page_of (node_with p.nodes.nodes) p.frame.root p.frame.viewport p.frame.next; room = p.nodes.room; ids = p.nodes.ids } };

    ghost invariant = { λ p. IsCounted p.nodes p.frame.root p.frame.sums (page_of (node_with p.nodes.nodes) p.frame.root p.frame.viewport p.frame.next) };
}

impl Tree {
    /// No node, seen through an unscrolled viewport of these sides.
    pub(crate) fn new(alloc: Global, w: i64, h: i64) -> Tree
        requires width { (pos 1 ≤ℤ w) × (w ≤ℤ pos (2 ^ 20)) }
        requires height { (pos 1 ≤ℤ h) × (h ≤ℤ pos (2 ^ 20)) }
        ensures { result.contents ≡ empty_page w h }
    {
        Tree {
            nodes: Nodes::new(alloc),
            frame: Frame {
                sums: NOTHING,
                root: None,
                viewport: Viewport {
                    w,
                    h,
                    scroll: ORIGIN,
                    max: ORIGIN,
                },
                next: 1,
            },
        }
    }

    /// Whether the id is there.
    pub(crate) fn has(&self, id: u32) -> bool
        ensures { result ≡ has_id self.now.contents id }
    {
        self.find(id).is_some()
    }

    /// The id of the root; none exactly where no node is there.
    pub(crate) fn root(&self) -> Option<u32>
        ensures root { option_to_list result ≡ roots_of self.now.contents.tree }
        ensures none { IsNone result ↔ (node_count self.now.contents.tree ≡ 0) }
    {
        self.frame.root
    }

    /// How many nodes there are.
    pub(crate) fn count(&self) -> u32
        ensures { result ≡ node_count self.now.contents.tree }
    {
        self.nodes.len() as u32
    }

    /// The node of an id, where it is there.
    pub(crate) fn find(&self, id: u32) -> Option<&Node>
        ensures { option_copied result ≡ node_of self.now.contents id }
    {
        self.nodes.find(id)
    }

    /// What the memory of the nodes comes from.
    pub(crate) fn allocator(&self) -> &Global {
        self.nodes.allocator()
    }

    /// What there is beside the nodes.
    pub(crate) fn frame(&self) -> Frame
        ensures { IsFrame result self.now.contents }
    {
        self.frame
    }

    /// The plan of an edit without a fault, with all the memory that carrying it out takes. The contents stay; the room never
    /// shrinks.
    pub(crate) fn plan(&mut self, edit: &Edit) -> Result<Plan, EditFault>
        requires { IsInRange edit.now }
        ensures contents { self.new.contents ≡ self.old.contents }
        ensures room { self.old.room ≤ self.new.room }
        ensures planned { IfOk result (λ plan. IsPlanned plan edit.now self.new) }
        ensures first_fault { IfErr result (λ why. why ≢ EditFault.OutOfMemory → first_fault self.old.contents edit.now ≡ Some why) }
    {
        match edit {
            Edit::Add {
                parent,
                at,
                kind,
                boxes,
                style,
            } => self.plan_add(*parent, *at, *kind, boxes, style),
            Edit::Remove { id } => self.plan_remove(*id),
            Edit::Move { id, parent, at } => self.plan_move(*id, *parent, *at),
            Edit::Place {
                id,
                anchor,
                boxes,
                max,
            } => self.plan_place(*id, *anchor, boxes, *max),
            Edit::Restyle { id, style } => self.plan_restyle(*id, style),
            Edit::Reshape { id, form } => self.plan_reshape(*id, form),
            Edit::Scroll { id, x, y } => self.plan_scroll(*id, *x, *y),
            Edit::Resize { w, h, max } => Ok(self.plan_resize(*w, *h, *max)),
            Edit::ScrollView { x, y } => Ok(self.plan_scroll_view(*x, *y)),
        }
    }

    /// Carries out a planned edit. It takes no memory.
    pub(crate) fn carry_out(&mut self, plan: Plan, edit: &Snapshot<Edit>) -> Taken
        requires { IsPlanned plan edit.now.value self.old }
        ensures contents { self.new.contents ≡ edited self.old.contents edit.now.value }
        ensures room { self.new.room ≡ self.old.room }
        ensures taken { IsTaken result self.old.contents self.new.contents self.new.room }
        ensures answer { answer_by result ≡ answer_of self.old.contents edit.now.value }
        ensures seen { (k : ℕ) → seen_of (node_of self.new.contents k) ≡ seen_after plan k (node_of self.old.contents k) }
    {
        match plan {
            Plan::AddNode { node, place, spare } => self.add(node, place, spare, edit),
            Plan::RemoveNodes {
                parent,
                siblings,
                ids,
                gone,
            } => self.remove(parent, siblings, &ids, gone, edit),
            Plan::MoveNodes {
                place,
                siblings,
                children,
                ids,
            } => self.relocate(place, siblings, children, ids, edit),
            Plan::ChangeNode { id, change } => self.change(id, change, edit),
            Plan::ResizeViewport { w, h, max } => self.resize(w, h, max, edit),
            Plan::ScrollViewport { to } => self.scroll_view(to, edit),
        }
    }

    /// Takes an edit back that was carried out. It takes no memory, and the room stays.
    pub(crate) fn take_back(&mut self, taken: Taken, frame: Frame, before: &Snapshot<Tree>)
        requires valid { IsValid before.now.value.contents }
        requires frame { IsFrame frame before.now.value.contents }
        requires taken { IsTaken taken before.now.value.contents self.old.contents self.old.room }
        ensures contents { self.new.contents ≡ before.now.value.contents }
        ensures room { self.new.room ≡ self.old.room }
    {
        put_back(&mut self.nodes, taken);
        self.frame = frame;
    }

    /// What holds of the contents of every tree.
    pub(crate) fn validity(&self)
        ensures { IsValid self.now.contents }
    {
        let _ = &self.nodes;
    }
}
