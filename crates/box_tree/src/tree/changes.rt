// An edit that changes one node: carrying it out, and taking it back.
ghost use Rattle.std.specs.Prelude.{◌≡◌, ℕ};
ghost use Rattle.std.specs.Option.{option_map_or};
ghost use Rattle.box_tree.specs.Change.{changed, given_up};
ghost use Rattle.box_tree.specs.Edited.{edited, answer_of};
ghost use Rattle.box_tree.specs.Kept.{node_with, label_of, with_label};
ghost use Rattle.box_tree.specs.Nodes.{ChangesAt};
ghost use Rattle.box_tree.specs.Planned.{IsPlanned};
ghost use Rattle.box_tree.specs.Contents.{node_of};
ghost use Rattle.box_tree.specs.Touched.{seen_of, seen_after};
ghost use Rattle.box_tree.specs.Taken.{IsTaken, answer_by};
ghost use Rattle.box_tree.specs.declared.plan.Change.TheVariants.{Layout as LayoutOf};
ghost use Rattle.box_tree.specs.declared.plan.Plan.TheVariants.{ChangeNode};

use super::Tree;
use crate::edit::Edit;
use crate::node::Node;
use crate::nodes::Nodes;
use crate::plan::{Change, Layout, Taken};
use crate::sums::sums_at;
use std::mem::replace;
use std::snapshot::Snapshot;

impl Tree {
    // Carries out a planned change of one node.
    pub(super) fn change(&mut self, id: u32, change: Change, edit: &Snapshot<Edit>) -> Taken
        requires { IsPlanned (ChangeNode id change) edit.now.value self.old }
        ensures contents { self.new.contents ≡ edited self.old.contents edit.now.value }
        ensures room { self.new.room ≡ self.old.room }
        ensures taken { IsTaken result self.old.contents self.new.contents self.new.room }
        ensures answer { answer_by result ≡ answer_of self.old.contents edit.now.value }
        ensures seen { (k : ℕ) → seen_of (node_of self.new.contents k) ≡ seen_after (ChangeNode id change) k (node_of self.old.contents k) }
    {
        let others = self.frame.sums.without(sums_at(self.nodes.find(id)));
        let change = change_node(&mut self.nodes, id, change);
        self.frame.sums = others.with(sums_at(self.nodes.find(id)));
        Taken::Changed { id, change }
    }
}

// The node with this id gets what the change holds, where it is there, and gives up what it had.
pub(super) fn change_node(nodes: &mut Nodes, id: u32, change: Change) -> Change
    ensures changed { ChangesAt nodes.old nodes.new id (with_label (changed change)) }
    ensures had { result ≡ option_map_or (λ n. given_up change (label_of n)) (node_with nodes.old.nodes id) change }
{
    if nodes.find(id).is_none() {
        return change;
    }
    let mut node = nodes.take(id);
    let had = exchange(&mut node, change);
    nodes.put(node);
    had
}

// A node gets what the change holds, and gives up what it had.
fn exchange(node: &mut Node, change: Change) -> Change
    ensures changed { node.new ≡ with_label (changed change) node.old }
    ensures had { result ≡ given_up change (label_of node.old) }
{
    match change {
        Change::Layout(layout) => Change::Layout(exchange_layout(node, layout)),
        Change::Style(style) => Change::Style(replace(&mut node.style, style)),
        Change::Form(form) => Change::Form(replace(&mut node.form, form)),
        Change::Scroll(scroll) => Change::Scroll(replace(&mut node.scroll, scroll)),
    }
}

// A node gets a layout, and gives up the one that it had.
fn exchange_layout(node: &mut Node, layout: Layout) -> Layout
    ensures changed { node.new ≡ with_label (changed (LayoutOf layout)) node.old }
    ensures had { LayoutOf result ≡ given_up (LayoutOf layout) (label_of node.old) }
{
    let Layout {
        anchor,
        boxes,
        scroll,
        max,
    } = layout;
    Layout {
        anchor: replace(&mut node.anchor, anchor),
        boxes: replace(&mut node.boxes, boxes),
        scroll: replace(&mut node.scroll, scroll),
        max: replace(&mut node.max, max),
    }
}
