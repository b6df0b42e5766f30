ghost use Rattle.std.specs.Prelude.{◌≡◌, ◌≢◌, ◌+◌, ◌≤◌, ◌<◌, ◌↔◌, ◌^◌, ℕ, pos, ◌≤ℤ◌, Some, None, IsTrue, IsNone, IfOk, IfErr, OnOk};
ghost use Rattle.std.specs.Option.{option_to_list, option_copied};
ghost use Rattle.box_tree.specs.declared.item.Item.{Item};
ghost use Rattle.box_tree.specs.Contents.{empty_page, has_id, node_of, IsValid};
ghost use Rattle.box_tree.specs.Edited.{IsInRange, first_fault, edited, answer_of};
ghost use Rattle.box_tree.specs.Forest.{roots_of, node_count};
ghost use Rattle.box_tree.specs.Items.{item_count};
ghost use Rattle.box_tree.specs.Numbers.{numbers_of, Names, IsNumber, KeepsNumbers, GivesFreshNumbers, HasSameItems, IsNumberedPage};

use self::numbers::renumber;
use crate::edit::{Done, Edit, EditFault};
use crate::item::Item;
use crate::items::Items;
use crate::node::Node;
use crate::plan::{Prepared, Undo};
use crate::tree::{Tree, answer_by};
use crate::viewport::Viewport;
use fractions::{Ledger, Steps};
use std::alloc::Global;
use std::marker::Model;
use std::snapshot::Snapshot;

mod numbers;

/// A page: a tree of nodes or none, seen through a viewport, and the numbers of what is painted of them.
#[derive(Drop)]
pub struct Page {
    tree: Tree,
    items: Items,
}

impl Model for Page {
    ghost use Rattle.std.specs.Coded.{Coded, codes};
    ghost use Rattle.box_tree.specs.Forest.{Label};
    ghost use Rattle.box_tree.specs.ForestCode.{forest_code};
    ghost use Rattle.box_tree.specs.PageState.{PageState};

    ghost Value = { PageState };

    ghost coded = { let label : Coded Label = Prim.hlevel codes in Prim.hlevel (codes, forest_code label) };

    ghost use Rattle.box_tree.specs.Items.{node_items};
    ghost use Rattle.box_tree.specs.Numbers.{IsNumbered};

    ghost view = { λ p. record { contents = p.tree.contents; room = p.tree.room; ids = p.tree.ids; items = p.items.items; item_room = p.items.room } };

    ghost invariant = { λ p. IsNumbered p.items.items (node_items p.tree.contents) };
}

impl Page {
    /// A page with no node, seen through an unscrolled viewport of these sides, 1 to 2^20 units each.
    pub fn new(alloc: Global, w: i64, h: i64) -> Page
        requires width { (pos 1 ≤ℤ w) × (w ≤ℤ pos (2 ^ 20)) }
        requires height { (pos 1 ≤ℤ h) × (h ≤ℤ pos (2 ^ 20)) }
        ensures { result.contents ≡ empty_page w h }
    {
        Page {
            tree: Tree::new(alloc, w, h),
            items: Items::new(alloc),
        }
    }

    /// Whether the id is in the page.
    pub fn has(&self, id: u32) -> bool
        ensures { result ≡ has_id self.now.contents id }
    {
        self.find(id).is_some()
    }

    /// The id of the root; none exactly where no node is there.
    pub fn root(&self) -> Option<u32>
        ensures root { option_to_list result ≡ roots_of self.now.contents.tree }
        ensures none { IsNone result ↔ (node_count self.now.contents.tree ≡ 0) }
    {
        self.tree.root()
    }

    /// The viewport, in units.
    pub fn viewport(&self) -> Viewport
        ensures { result ≡ self.now.contents.viewport }
    {
        self.tree.frame().viewport
    }

    /// How many nodes there are, at most 65,536.
    pub fn count(&self) -> u32
        ensures { result ≡ node_count self.now.contents.tree }
    {
        self.tree.count()
    }

    /// How many items there are, at most 327,680: each box, the picture of each image with a box, and the outline of each shape.
    pub fn item_count(&self) -> u32
        ensures { result ≡ item_count self.now.contents.tree }
    {
        self.tree.validity();
        self.items.soundness();
        self.items.count() as u32
    }

    /// One past the greatest number that an item has, or has had: at most 655,360.
    pub fn number_limit(&self) -> u32
        ensures below { (number : ℕ) → IsNumber self.now.items number → number < result }
        ensures most { result ≤ 655360 }
    {
        self.items.soundness();
        self.items.given_count() as u32
    }

    /// The node of an id, in one step.
    pub fn node<L: Ledger>(&self, id: u32, steps: &mut Steps<L>) -> &Node
        requires { IsTrue (has_id self.now.contents id) }
        ensures node { node_of self.now.contents id ≡ Some result.now }
        ensures step { steps.new ≡ steps.old + 1 }
    {
        steps.tick();
        self.find(id).unwrap()
    }

    // The node of an id, where it is in the page.
    pub(crate) fn find(&self, id: u32) -> Option<&Node>
        ensures { option_copied result ≡ node_of self.now.contents id }
    {
        self.tree.find(id)
    }

    /// The item of a number, in one step.
    pub fn item<L: Ledger>(&self, number: u32, steps: &mut Steps<L>) -> Item
        requires { IsNumber self.now.items number }
        ensures item { Names self.now.items number result }
        ensures step { steps.new ≡ steps.old + 1 }
    {
        steps.tick();
        self.items.item(number)
    }

    /// The numbers of the items of a node, each below 655,360, in one step: those of its boxes in order, and then that of its
    /// picture or its outline. None for an id that isn't in the page.
    pub fn items_of<L: Ledger>(&self, id: u32, steps: &mut Steps<L>) -> &[u32]
        ensures numbers { result.now ≡ numbers_of self.now.items id }
        ensures step { steps.new ≡ steps.old + 1 }
    {
        steps.tick();
        self.items.of(id)
    }

    /// Tests an edit, and takes all memory that carrying it out needs. The contents and the
    /// numbers of the items stay; the room never shrinks.
    pub fn check(&mut self, edit: &Edit) -> Result<Prepared, EditFault>
        requires { IsInRange edit.now }
        ensures contents { self.new.contents ≡ self.old.contents }
        ensures items { HasSameItems self.old.items self.new.items }
        ensures room { self.old.room ≤ self.new.room }
        ensures faultless { OnOk result (first_fault self.old.contents edit.now ≡ None) }
        ensures prepared { IfOk result (λ p. (p.edit ≡ edit.now) × (p.page ≡ self.new)) }

        // Want of memory may come in place of any other answer.
        ensures first_fault { IfErr result (λ why. why ≢ EditFault.OutOfMemory → first_fault self.old.contents edit.now ≡ Some why) }
    {
        let plan = self.tree.plan(edit)?;
        let spare = self.spare_for(&plan, edit)?;
        Ok(Prepared {
            plan,
            spare,
            edit: Snapshot::of(edit),
            page: Snapshot::of(self),
        })
    }

    /// Carries out an edit that was prepared from this page as it stands. The room never shrinks. An item that stays keeps
    /// its number, and a new one gets a number that no item had before.
    pub fn commit(&mut self, prepared: Prepared) -> Undo
        requires { prepared.page ≡ self.old }
        ensures contents { self.new.contents ≡ edited self.old.contents prepared.edit }
        ensures edit { result.edit ≡ prepared.edit }
        ensures before { result.before ≡ self.old.contents }
        ensures after { result.after ≡ self.new.contents }
        ensures items_before { result.items_before ≡ self.old.items }
        ensures items_after { result.items_after ≡ self.new.items }
        ensures room { result.room ≡ self.new.room }
        ensures room_kept { self.old.room ≤ self.new.room }
        ensures numbers_kept { KeepsNumbers self.old.items self.new.items self.new.contents }
        ensures numbers_fresh { GivesFreshNumbers self.old.items self.new.items }
    {
        let Prepared {
            plan,
            spare,
            edit,
            page: _,
        } = prepared;
        let before = Snapshot::of(&self.tree);
        let items_before = Snapshot::of(&self.items);
        let frame = self.tree.frame();
        self.tree.validity();
        let earlier = renumber(&mut self.items, &self.tree, &plan, spare);
        let taken = self.tree.carry_out(plan, &edit);
        self.tree.validity();
        Undo {
            taken,
            frame,
            earlier,
            edit,
            before,
            after: Snapshot::of(&self.tree),
            items_before,
            items_after: Snapshot::of(&self.items),
        }
    }

    /// Takes an edit back: the page is the one before it, the next id and the numbers of the items too. It takes no memory,
    /// and the room stays.
    pub fn revert(&mut self, undo: Undo)
        requires contents { undo.after ≡ self.old.contents }
        requires items { undo.items_after ≡ self.old.items }
        requires room { undo.room ≡ self.old.room }
        ensures contents { self.new.contents ≡ undo.before }
        ensures items { HasSameItems undo.items_before self.new.items }
        ensures room { self.new.room ≡ self.old.room }
    {
        let Undo {
            taken,
            frame,
            earlier,
            edit: _,
            before,
            after: _,
            items_before: _,
            items_after: _,
        } = undo;
        self.tree.take_back(taken, frame, &before);
        self.items.back_all(earlier);
    }

    /// Gives up what the edit took out, and answers it.
    pub fn settle(&mut self, undo: Undo) -> Done
        requires contents { undo.after ≡ self.old.contents }
        requires room { undo.room ≡ self.old.room }
        ensures page { self.new ≡ self.old }
        ensures answer { result ≡ answer_of undo.before undo.edit }
    {
        let Undo {
            taken,
            frame: _,
            earlier: _,
            edit: _,
            before: _,
            after: _,
            items_before: _,
            items_after: _,
        } = undo;
        answer_by(&taken)
    }

    /// The id that the next node gets.
    pub fn next_id(&self) -> u32
        ensures { result ≡ self.now.contents.next }
    {
        self.tree.frame().next
    }

    /// What holds of the contents of every page.
    pub fn validity(&self)
        ensures { IsValid self.now.contents }
    {
        self.tree.validity();
    }

    /// What holds of the numbers of the items of every page.
    pub fn numbering(&self)
        ensures { IsNumberedPage self.now.contents self.now.items }
    {
        self.tree.validity();
        self.items.soundness();
    }
}

#[cfg(test)]
mod tests;
